// Bytes as hex digits, numbers as decimal ones: the words of the line protocol. Every function takes any
// bytes and answers for all of them. Assumes nothing.
#![tactic(auto)]

ghost use Rattle.std.specs.Prelude.{◌≡◌, ◌+◌, ◌*◌, ◌/◌, ◌%◌, min, length};
ghost use Rattle.digits.specs.Text.{Put, digit, letter, is_hex, spelled, spelling, longer_by, number_of, digit_of};

// The value of a hex digit. Upper case is none: std's char::to_digit takes it.
pub fn hex_digit(b: u8) -> Option<u8>
    ensures { result ≡ digit_of b }
{
    match b {
        b'0'..=b'9' => Some(b - b'0'),
        b'a'..=b'f' => Some(b - b'a' + 10),
        _ => None,
    }
}

// The hex digit of the low four bits of n. std's char::from_digit answers an Option of a char, for a None that cannot come. The crate report
// has its own, by its own definition: neither crate stands on the other.
fn hex_letter(n: u8) -> u8
    ensures { result ≡ letter n }
{
    let d = n % 16;
    if d < 10 { b'0' + d } else { b'a' + (d - 10) }
}

// Whether s is hex digits and nothing else, two for each byte.
pub fn is_hex(s: &[u8]) -> bool
    ensures { result ≡ is_hex s.now }
{
    s.len() % 2 == 0 && s.iter().all(|b| hex_digit(*b).is_some())
}

// The byte that two hex digits spell.
fn byte_of(high: u8, low: u8) -> u8
    ensures { result ≡ digit high % 16 * 16 + digit low % 16 }
{
    hex_digit(high).unwrap_or(0) * 16 + hex_digit(low).unwrap_or(0)
}

// Puts the bytes that s spells at the front of out, as many as there is room for, and answers how many. They are stored by
// index: of what a zip over iter_mut has written a proof knows nothing.
pub fn from_hex(s: &[u8], out: &mut [u8]) -> usize
    ensures { Put result (min (length s.now / 2) (length out.old)) (spelled s.now) out.old out.new }
{
    let (pairs, _) = s.as_chunks::<2>();
    let n = pairs.len().min(out.len());
    for (i, [high, low]) in pairs[..n].iter().enumerate() {
        out[i] = byte_of(*high, *low);
    }
    n
}

// Puts the hex text of s at the front of out, of as many bytes as there is room for, and answers how many characters. By index, as in
// from_hex.
pub fn to_hex(s: &[u8], out: &mut [u8]) -> usize
    ensures { Put result (2 * min (length s.now) (length out.old / 2)) (spelling s.now) out.old out.new }
{
    let n = s.len().min(out.len() / 2);
    for (i, b) in s[..n].iter().enumerate() {
        out[2 * i] = hex_letter(*b / 16);
        out[2 * i + 1] = hex_letter(*b);
    }
    2 * n
}

// The number with one more digit behind it.
fn longer(value: u64, b: u8) -> Option<u64>
    ensures { result ≡ longer_by value b }
{
    match b {
        b'0'..=b'9' => value.checked_mul(10)?.checked_add(u64::from(b - b'0')),
        _ => None,
    }
}

// The number that a word says: decimal digits and nothing else, and it fits. std's parse takes a `+` before them.
pub fn decimal(s: &[u8]) -> Option<u64>
    ensures { result ≡ number_of s.now }
{
    if s.is_empty() {
        return None;
    }
    let mut value = 0;
    for b in s {
        value = longer(value, *b)?;
    }
    Some(value)
}
