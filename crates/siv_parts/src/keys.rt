// The keys of one message (RFC 8452 section 4, derive_keys).
ghost use Rattle.std.specs.Prelude.{◌≡◌, ◌+◌, ◌++◌, length};
ghost use Rattle.aead.specs.Cipher.{encrypted};
ghost use Rattle.rfc8452.specs.Keys.{pair_by};

use aead::cipher::Cipher;
use field::FieldElement;
use polyval::block;

// The hash key as a field element, the cipher, and the nonce that they were made for.
#[derive(Clone, Copy)]
pub struct Keys {
    pub hash: FieldElement,
    pub cipher: Cipher,
    pub nonce: [u8; 12],
}

// Two strings, one behind the other.
fn joined<const N: usize>(low: &[u8], high: &[u8]) -> [u8; N]
    requires { length low.now + length high.now ≡ N }
    ensures { result ≡ low.now ++ high.now }
{
    let mut both = [0u8; N];
    octets::copy(low, &mut both);
    octets::put(&mut both, low.len(), high);
    both
}

// Sixteen bytes of a key, from the blocks i and j.
fn pair(given: &Cipher, nonce: [u8; 12], i: u32, j: u32) -> [u8; 16]
    ensures { result ≡ pair_by (encrypted given.now) nonce i j }
{
    let first = given.encrypt(joined(&i.to_le_bytes(), &nonce));
    let second = given.encrypt(joined(&j.to_le_bytes(), &nonce));
    joined(&first[..8], &second[..8])
}

impl Keys {
    ghost use Rattle.siv_parts.specs.Derives.{Derives};

    // The keys that the given one and the nonce make. A given key that has neither 16 nor 32 bytes is taken as the cipher takes
    // it, cut or filled to 16: callers refuse it first.
    pub fn derive(key: &[u8], nonce: [u8; 12]) -> Keys
        ensures { Derives key.now nonce result }
    {
        let given = Cipher::under(key);
        let authentication = pair(&given, nonce, 0, 1);
        let hash = block::block_of(&authentication);
        let low = pair(&given, nonce, 2, 3);
        if key.len() == 32 {
            let high = pair(&given, nonce, 4, 5);
            return Keys {
                hash,
                cipher: Cipher::from(joined::<32>(&low, &high)),
                nonce,
            };
        }
        Keys {
            hash,
            cipher: Cipher::from(low),
            nonce,
        }
    }
}
