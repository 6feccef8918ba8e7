// A hash record as bytes, for callers in other languages, both ways. Any bytes are a record: every call
// on it answers. Assumes nothing.
#![tactic(auto)]

ghost use Rattle.std.specs.Prelude.{◌≡◌, [], ◌∷◌, ◌≤◌, length};
ghost use Rattle.record.specs.Bytes.{element_bytes, record_bytes, power_in, record_of};

use feeding::{ExpandedKey, Hash, POWERS, Power};
use polyval::block;
use std::array;

// The bytes of the stored key: 32 for each power.
pub const KEY_SIZE: usize = POWERS * 32;

// The bytes of a record: the key, 16 of the element, 16 pending, 8 of the count.
pub const RECORD_SIZE: usize = KEY_SIZE + 40;

// A power and its D value.
fn power_bytes(p: Power) -> [[u8; 16]; 2]
    ensures { result ≡ element_bytes p.h ∷ element_bytes p.d ∷ [] }
{
    [p.h.to_bytes(), p.d.to_bytes()]
}

// The record as bytes.
pub fn encode(h: Hash) -> [u8; RECORD_SIZE]
    ensures { result ≡ record_bytes h }
{
    let powers = h.key.powers.map(power_bytes);
    let mut out = [0u8; RECORD_SIZE];
    let (key, rest) = out.split_at_mut(KEY_SIZE);
    let (acc, rest) = rest.split_at_mut(16);
    let (pending, count) = rest.split_at_mut(16);
    key.copy_from_slice(powers.as_flattened().as_flattened());
    acc.copy_from_slice(&h.acc.to_bytes());
    pending.copy_from_slice(&h.pending);
    count.copy_from_slice(&h.count.to_le_bytes());
    out
}

// The power at the front.
fn power_of(b: &[u8]) -> Power
    requires { 32 ≤ length b.now }
    ensures { result ≡ power_in 0 b.now }
{
    Power {
        h: block::block_of(b),
        d: block::block_of(&b[16..]),
    }
}

// The record that the bytes spell.
pub fn decode(b: [u8; RECORD_SIZE]) -> Hash
    ensures { result ≡ record_of b }
{
    Hash {
        key: ExpandedKey {
            powers: array::from_fn(|i| power_of(&b[i * 32..])),
        },
        acc: block::block_of(&b[KEY_SIZE..]),
        pending: *b[KEY_SIZE + 16..].first_chunk().unwrap(),
        count: usize::from_le_bytes(*b[KEY_SIZE + 32..].first_chunk().unwrap()),
    }
}
