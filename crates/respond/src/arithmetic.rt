// Requests on words and on field elements.
use field::FieldElement;
use protocol::said::Said;
use protocol::words::Asked;

// The word of 32 bits that a number of 64 ends with. `as` is proved to lose nothing, so what is lost on purpose is taken away first.
fn low_half(x: u64) -> u32 {
    (x & 0xFFFF_FFFF) as u32
}

// Both words of a carryless product of 64 bits.
fn product64(x: u64, y: u64) -> Said {
    let p = word::product64(x, y);
    Said::numbers(&[p.lo, p.hi])
}

// Requests on words.
pub(crate) fn on_words(asked: &Asked) -> Said {
    let x = asked.spelled(0);
    let y = asked.spelled(1);
    let (x32, y32) = (low_half(x), low_half(y));
    match asked.call {
        b'p' => product64(x, y),
        b'b' => Said::numbers(&[u64::from(word::bmul32(x32, y32))]),
        b'r' => Said::numbers(&[word::reverse64(x)]),
        _ => Said::numbers(&[u64::from(word::reverse32(x32))]),
    }
}

// The lone R/F product of a with b and b's companion.
fn rf(a: FieldElement, b: FieldElement) -> FieldElement {
    let d = b.companion(0);
    let product = a.rf_mul(b, d.element, 0);
    product.element
}

// The element that a request on elements says.
fn element(call: u8, a: FieldElement, b: FieldElement) -> FieldElement {
    match call {
        b'a' => a.add(b),
        b'd' => a.dot(b),
        b'n' => a.dot32(b),
        b'f' => rf(a, b),
        b'm' => a.mulx(),
        _ => a.reverse(),
    }
}

// Requests on elements. What is said lies in the space.
pub(crate) fn on_elements(asked: &Asked, space: &mut [u8]) -> Said {
    let a = FieldElement::from_bytes(asked.block(0));
    let b = FieldElement::from_bytes(asked.block(1));
    octets::copy(&element(asked.call, a, b).to_bytes(), space);
    Said::numbers(&[])
}
