// The counter blocks and the key stream (RFC 8452 section 4, AES_CTR).
ghost use Rattle.std.specs.Prelude.{◌≡◌};
ghost use Rattle.modes.specs.Stream.{masked};
ghost use Rattle.aead.specs.Cipher.{encrypted};
ghost use Rattle.rfc8452.specs.Counter.{counter_block, next_counter};

use aead::cipher::Cipher;

// The first counter block: the tag with the top bit of its last byte set.
pub fn counter_block(tag: [u8; 16]) -> [u8; 16]
    ensures { result ≡ counter_block tag }
{
    let mut b = tag;
    b[15] |= 0x80;
    b
}

// The next counter block: the first four bytes count on, and the others never change.
pub(crate) fn next_counter(b: [u8; 16]) -> [u8; 16]
    ensures { result ≡ next_counter b }
{
    let count = u32::from_le_bytes(*b.first_chunk().unwrap()).wrapping_add(1);
    let mut next = b;
    next[..4].copy_from_slice(&count.to_le_bytes());
    next
}

// Masks a text where it lies, block by block.
pub fn mask(cipher: &Cipher, start: [u8; 16], text: &mut [u8])
    ensures { text.new ≡ masked next_counter (encrypted cipher.now) start text.old }
{
    let mut counter = start;
    // By place: of what a loop over chunks_mut has written a proof knows nothing.
    for k in 0..text.len().div_ceil(16) {
        octets::xor_into(&cipher.encrypt(counter), &mut text[k * 16..]);
        // In two steps: the checker takes no call that lays its result over an array it was given.
        let next = next_counter(counter);
        counter = next;
    }
}
