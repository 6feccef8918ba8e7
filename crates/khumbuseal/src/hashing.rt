// POLYVAL for C: hash records as byte strings of a fixed size. Any bytes are a record. A record is rewritten
// on answer 0 alone. Assumes nothing.
ghost use Rattle.std.specs.Prelude.{◌≡◌};
ghost use Rattle.feeding.specs.Key.{check_of};
ghost use Rattle.feeding.specs.Calls.{start_of, whole_of, padded_of, piece_of, finish_of, reset_of};
ghost use Rattle.feeding.specs.Join.{join_of};
ghost use Rattle.feeding.specs.Told.{fed_told};
ghost use Rattle.record.specs.Bytes.{record_of, record_bytes};
ghost use Rattle.khumbuseal.specs.Cells.{yes_or_no};
ghost use Rattle.khumbuseal.specs.Hashing.{route_of, Stores, Joins};

use answer::Reason;
use feeding::{Fed, Finished, Route};
use polyval::key;
use record::RECORD_SIZE;

// The numbers of two routes, as C has them (include/khumbuseal.h); any other is the wide one.
const NARROW: u8 = 1;

const RF: u8 = 2;

// The route of a number.
fn route_of(number: u8) -> Route
    ensures { result ≡ route_of number }
{
    match number {
        NARROW => Route::Narrow,
        RF => Route::Rf,
        _ => Route::Wide,
    }
}

// What a call on a record leaves to C: the record that it made, in its cell, and what it spent; the cell as it was
// and 0 where it refused.
fn store(fed: Result<Fed, Reason>, cell: &mut [u8; RECORD_SIZE], multiplies: &mut u64) -> u8
    ensures { Stores (fed_told fed) cell.old result cell.new multiplies.new }
{
    *multiplies = 0;
    if let Ok(made) = fed {
        *cell = record::encode(made.hash);
        *multiplies = made.multiplies;
    }
    answer::number(&fed)
}

// Makes a record under a key of 16 bytes.
#[unsafe(no_mangle)]
pub extern "C" fn khumbuseal_hash_start(
    cell: &mut [u8; RECORD_SIZE],
    key: &[u8],
    multiplies: &mut u64,
) -> u8
    ensures { Stores (start_of key.now) cell.old result cell.new multiplies.new }
{
    let started = hash::start(key);
    store(started, cell, multiplies)
}

// Feeds whole blocks.
#[unsafe(no_mangle)]
pub extern "C" fn khumbuseal_hash_feed_blocks(
    cell: &mut [u8; RECORD_SIZE],
    route: u8,
    s: &[u8],
    multiplies: &mut u64,
) -> u8
    ensures { Stores (whole_of (route_of route) (record_of cell.old) s.now) cell.old result cell.new multiplies.new }
{
    let whole = hash::feed_blocks(record::decode(*cell), route_of(route), s);
    store(whole, cell, multiplies)
}

// Feeds blocks of which the last may be short, and is filled with zeros.
#[unsafe(no_mangle)]
pub extern "C" fn khumbuseal_hash_feed_padded(
    cell: &mut [u8; RECORD_SIZE],
    route: u8,
    s: &[u8],
    multiplies: &mut u64,
) -> u8
    ensures { Stores (padded_of (route_of route) (record_of cell.old) s.now) cell.old result cell.new multiplies.new }
{
    let padded = hash::feed_padded(record::decode(*cell), route_of(route), s);
    store(padded, cell, multiplies)
}

// Feeds any bytes: what does not fill a block waits in the record.
#[unsafe(no_mangle)]
pub extern "C" fn khumbuseal_hash_feed_piece(
    cell: &mut [u8; RECORD_SIZE],
    route: u8,
    s: &[u8],
    multiplies: &mut u64,
) -> u8
    ensures { Stores (piece_of (route_of route) (record_of cell.old) s.now) cell.old result cell.new multiplies.new }
{
    let piece = hash::feed_piece(record::decode(*cell), route_of(route), s);
    store(piece, cell, multiplies)
}

// The tag of all that was fed. The record is as it was.
#[unsafe(no_mangle)]
pub extern "C" fn khumbuseal_hash_finish(
    cell: &[u8; RECORD_SIZE],
    route: u8,
    tag: &mut [u8; 16],
    multiplies: &mut u64,
) -> u8
    ensures { finish_of (route_of route) (record_of cell.now) ≡ record { answer = result; tag = tag.new; multiplies = multiplies.new } }
{
    let finished = hash::finish(record::decode(*cell), route_of(route));
    // What a C caller sees of a refusal, on the spot: a name for zeros would say no more.
    let told = finished.unwrap_or(Finished {
        tag: [0; 16],
        multiplies: 0,
    });
    // By a variable: tried straight, and the borrow checker does not cover a field that is an array, stored.
    let bytes = told.tag;
    *tag = bytes;
    *multiplies = told.multiplies;
    answer::number(&finished)
}

// The same key, with nothing absorbed and nothing pending. It spends nothing.
#[unsafe(no_mangle)]
pub extern "C" fn khumbuseal_hash_reset(cell: &mut [u8; RECORD_SIZE]) -> u8
    ensures { Stores (reset_of (record_of cell.old)) cell.old result cell.new 0 }
{
    let cleared = hash::reset(record::decode(*cell));
    let mut spent = 0;
    store(cleared, cell, &mut spent)
}

// The first record becomes that of both parts, of which the second has so many blocks.
#[unsafe(no_mangle)]
pub extern "C" fn khumbuseal_hash_join(
    first: &mut [u8; RECORD_SIZE],
    second: &[u8; RECORD_SIZE],
    blocks: u64,
    dots: &mut u64,
) -> u8
    ensures { Joins (join_of (record_of first.old) (record_of second.now) blocks) first.old result first.new dots.new }
{
    let joined = join::join(record::decode(*first), record::decode(*second), blocks);
    store(joined.map(Fed::from), first, dots)
}

// Whether every stored power and D value belongs to the stored H: 1 or 0.
#[unsafe(no_mangle)]
pub extern "C" fn khumbuseal_hash_key_belongs(cell: &[u8; RECORD_SIZE]) -> u8
    ensures { result ≡ yes_or_no (check_of (record_of cell.now).key) }
{
    u8::from(key::check(record::decode(*cell).key))
}
