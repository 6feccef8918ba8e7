// GHASH for C: its record as 32 bytes, POLYVAL's key for GHASH's and the sum. Any bytes are one. Assumes
// nothing.
ghost use Rattle.std.specs.Prelude.{◌≡◌};
ghost use Rattle.ghash.specs.Calls.{ghash_start_of, fed_of, ghash_tag_of, hashed_of};
ghost use Rattle.khumbuseal.specs.Ghashing.{ghash_bytes, ghash_in, Begins};

use ghash::parts::Ghash;
use polyval::block;

// The bytes of a GHASH record: two elements.
const GHASH_SIZE: usize = 32;

// Writes the record as bytes.
fn encode(g: Ghash, cell: &mut [u8; GHASH_SIZE])
    ensures { cell.new ≡ ghash_bytes g }
{
    cell.copy_from_slice([g.key.to_bytes(), g.acc.to_bytes()].as_flattened());
}

// The record that the bytes spell.
fn decode(b: &[u8; GHASH_SIZE]) -> Ghash
    ensures { result ≡ ghash_in b.now }
{
    Ghash {
        key: block::block_of(b),
        acc: block::block_of(&b[16..]),
    }
}

// The hash of whole blocks under a key of 16 bytes.
#[unsafe(no_mangle)]
pub extern "C" fn khumbuseal_ghash(key: &[u8], s: &[u8], tag: &mut [u8; 16]) -> u8
    ensures { hashed_of key.now s.now ≡ record { answer = result; tag = tag.new } }
{
    let hashed = ghash::ghash(key, s);
    *tag = hashed.unwrap_or([0; 16]);
    answer::number(&hashed)
}

// Makes a record under a key of 16 bytes.
#[unsafe(no_mangle)]
pub extern "C" fn khumbuseal_ghash_start(cell: &mut [u8; GHASH_SIZE], key: &[u8]) -> u8
    ensures { Begins (ghash_start_of key.now) cell.old result cell.new }
{
    let started = Ghash::start(key);
    if let Ok(begun) = started {
        encode(begun, cell);
    }
    answer::number(&started)
}

// Feeds blocks of which the last may be short, and is filled with zeros.
#[unsafe(no_mangle)]
pub extern "C" fn khumbuseal_ghash_feed_padded(cell: &mut [u8; GHASH_SIZE], s: &[u8])
    ensures { cell.new ≡ ghash_bytes (fed_of (ghash_in cell.old) s.now) }
{
    let g = decode(cell);
    encode(g.feed_padded(s), cell);
}

// The hash of all that was fed. The record is as it was.
#[unsafe(no_mangle)]
pub extern "C" fn khumbuseal_ghash_finish(cell: &[u8; GHASH_SIZE], tag: &mut [u8; 16])
    ensures { tag.new ≡ ghash_tag_of (ghash_in cell.now) }
{
    *tag = decode(cell).finish();
}
