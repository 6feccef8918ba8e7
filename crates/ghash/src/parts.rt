// The record of a GHASH in parts: POLYVAL's machine on reversed blocks.
ghost use Rattle.std.specs.Prelude.{◌≡◌};
ghost use Rattle.ghash.specs.Calls.{ghash_start_of, start_told, fed_of, ghash_tag_of};

use answer::Reason;
use field::FieldElement;
use polyval::{block, soft};

// POLYVAL's key for GHASH's, and the element.
#[derive(Clone, Copy)]
pub struct Ghash {
    pub key: FieldElement,
    pub acc: FieldElement,
}

impl Ghash {
    // A record under a key of 16 bytes, with nothing absorbed.
    pub fn start(key: &[u8]) -> Result<Ghash, Reason>
        ensures { start_told result ≡ ghash_start_of key.now }
    {
        if key.len() != 16 {
            return Err(Reason::KeyLength);
        }
        Ok(Ghash {
            key: block::block_of(key).reverse().mulx(),
            acc: FieldElement::ZERO,
        })
    }

    // The blocks of s, the last short one filled with zeros.
    pub fn feed_padded(self, s: &[u8]) -> Ghash
        ensures { result ≡ fed_of self s.now }
    {
        let mut acc = self.acc;
        for part in s.chunks(16) {
            acc = soft::step(self.key, acc, block::block_of(part).reverse());
        }
        Ghash { acc, ..self }
    }

    // The hash of all that was fed. The record is as it was.
    pub fn finish(self) -> [u8; 16]
        ensures { result ≡ ghash_tag_of self }
    {
        self.acc.reverse().to_bytes()
    }
}
