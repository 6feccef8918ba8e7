// The three feeds: whole blocks, blocks of which the last may be short, and pieces of any length.
ghost use Rattle.std.specs.Prelude.{◌≡◌, ◌++◌, ◌+◌, ◌≤◌, length, Ok};
ghost use Rattle.feeding.specs.Record.{pending_of};
ghost use Rattle.feeding.specs.Calls.{whole_of, padded_of, pieced, piece_of};
ghost use Rattle.feeding.specs.Told.{fed_told};

use crate::records;
use answer::Reason;
use feeding::{Fed, Hash, Route};
use polyval::rf::Grouping;
use polyval::route;

// Blocks of which the last may be short, and is filled with zeros: 14 where bytes are pending. An
// empty feed adds no block.
pub fn feed_padded(h: Hash, route: Route, s: &[u8]) -> Result<Fed, Reason>
    ensures { fed_told result ≡ padded_of route h s.now }
{
    records::pending_at_most(0, h)?;
    let made = route::absorb(route, Grouping::InGroups, h.key, records::held(h), s);
    Ok(records::holding(h.key, made, &[]))
}

// Whole blocks: 14 where bytes are pending, then 3 where the length is no multiple of 16.
pub fn feed_blocks(h: Hash, route: Route, s: &[u8]) -> Result<Fed, Reason>
    ensures { fed_told result ≡ whole_of route h s.now }
{
    if h.count == 0 && s.len() % 16 != 0 {
        return Err(Reason::NotWholeBlocks);
    }
    feed_padded(h, route, s)
}

// The pending bytes and a piece that completes their block: that block, the whole blocks behind it,
// and the rest pending.
fn complete(h: Hash, route: Route, s: &[u8]) -> Fed
    requires { (h.count ≤ 15) × (16 ≤ h.count + length s.now) }
    ensures { fed_told (Ok result) ≡ pieced route h (pending_of h ++ s.now) }
{
    let room = 16 - h.count;
    let first = records::kept(h, &s[..room]);
    let made = route::absorb(route, Grouping::Alone, h.key, records::held(h), &first);
    let end = s.len() - (s.len() - room) % 16;
    let more = route::absorb(route, Grouping::Alone, h.key, made, &s[room..end]);
    records::holding(h.key, more, &s[end..])
}

// Any bytes: what does not fill a block is kept for the next call.
pub fn feed_piece(h: Hash, route: Route, s: &[u8]) -> Result<Fed, Reason>
    ensures { fed_told result ≡ piece_of route h s.now }
{
    records::pending_at_most(15, h)?;
    if 16 - h.count <= s.len() {
        return Ok(complete(h, route, s));
    }
    let pending = records::kept(h, s);
    Ok(records::holding(h.key, records::held(h), &pending[..h.count + s.len()]))
}
