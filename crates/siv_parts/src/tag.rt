// The tag of a message (RFC 8452 section 4), from its text or from the masked text that a sealed part holds.
ghost use Rattle.std.specs.Prelude.{◌≡◌, ◌*◌, ◌%◌, ◌^◌, take};
ghost use Rattle.field.specs.Element.{value, element};
ghost use Rattle.rfc8452.specs.Machine.{run};
ghost use Rattle.rfc8452.specs.Blocks.{blocks};
ghost use Rattle.octets.specs.Strings.{xor_bytes};
ghost use Rattle.modes.specs.Stream.{masked};
ghost use Rattle.aead.specs.Cipher.{encrypted};
ghost use Rattle.rfc8452.specs.Counter.{next_counter};
ghost use Rattle.rfc8452.specs.Tag.{length_block, tag_block};
ghost use Rattle.siv_parts.specs.Keyed.{tag_by, mask_by};

use crate::counter;
use crate::keys::Keys;
use field::FieldElement;
use polyval::soft;

// A length in bits. No slice is so long that a bit is lost.
fn bits(n: usize) -> u64
    ensures { result ≡ n * 8 % 2 ^ 64 }
{
    (n as u64).wrapping_mul(8)
}

// The two lengths in bits, that of the associated data first.
fn length_block(ad: usize, text: usize) -> [u8; 16]
    ensures { result ≡ length_block ad text }
{
    FieldElement {
        lo: bits(ad),
        hi: bits(text),
    }
    .to_bytes()
}

// The hash with the nonce added and the top bit cleared: what is encrypted.
fn tag_block(hash: FieldElement, nonce: [u8; 12]) -> [u8; 16]
    ensures { result ≡ tag_block nonce (value hash) }
{
    let mut b = hash.to_bytes();
    octets::xor_into(&nonce, &mut b);
    b[15] &= 0x7f;
    b
}

// Hashes the first block of a text, masked with pad, in one block of local memory.
// The hash key and what is hashed so far stay two parameters: so soft::absorb takes them, and each call has another second one.
fn absorb_front(hash: FieldElement, acc: FieldElement, pad: [u8; 16], text: &[u8]) -> FieldElement
    ensures { result ≡ element (run (value hash) (value acc) (blocks (xor_bytes (take 16 text.now) pad))) }
{
    let mut block = [0u8; 16];
    octets::copy(text, &mut block);
    octets::xor_into(&pad, &mut block);
    let n = text.len().min(16);
    soft::absorb(hash, acc, &block[..n])
}

impl Keys {
    // The tag, where acc is the hash of all but the length block.
    fn finished(&self, acc: FieldElement, ad: usize, text: usize) -> [u8; 16]
        ensures { result ≡ encrypted self.now.cipher (tag_block self.now.nonce (run (value self.now.hash) (value acc) (blocks (length_block ad text)))) }
    {
        let hash = soft::absorb(self.hash, acc, &length_block(ad, text));
        self.cipher.encrypt(tag_block(hash, self.nonce))
    }

    // The tag of a text.
    pub fn text_tag(&self, ad: &[u8], text: &[u8]) -> [u8; 16]
        ensures { result ≡ tag_by self.now ad.now text.now }
    {
        let first = soft::absorb(self.hash, FieldElement::zero(), ad);
        let second = soft::absorb(self.hash, first, text);
        self.finished(second, ad.len(), text.len())
    }

    // Hashes what a masked text hides, and writes it nowhere.
    fn absorb_masked(&self, start: [u8; 16], acc: FieldElement, body: &[u8]) -> FieldElement
        ensures { result ≡ element (run (value self.now.hash) (value acc) (blocks (masked next_counter (encrypted self.now.cipher) start body.now))) }
    {
        let mut a = acc;
        let mut b = start;
        for block in body.chunks(16) {
            a = absorb_front(self.hash, a, self.cipher.encrypt(b), block);
            // In two steps: the checker takes no call that lays its result over an array it was given.
            let next = counter::next_counter(b);
            b = next;
        }
        a
    }

    // The tag of the text that a body hides under a tag.
    pub fn body_tag(&self, ad: &[u8], tag: [u8; 16], body: &[u8]) -> [u8; 16]
        ensures { result ≡ tag_by self.now ad.now (mask_by self.now tag body.now) }
    {
        let first = soft::absorb(self.hash, FieldElement::zero(), ad);
        let second = self.absorb_masked(counter::counter_block(tag), first, body);
        self.finished(second, ad.len(), body.len())
    }
}
