// Requests on stored keys and on hash records. A call that refuses is answered with zeros beside the reason's number.
ghost use Rattle.std.specs.Prelude.{◌≡◌, ◌≤◌};
ghost use Rattle.answer.specs.Reasons.{answer_of};
ghost use Rattle.feeding.specs.Told.{fed_told, finish_told};

use answer::Reason;
use feeding::{Fed, Finished, Hash, Route};
use field::FieldElement;
use protocol::said::Said;
use protocol::words::Asked;

// The record that bytes spell, as far as they go: the key, the element, what is pending. It counts none of that.
fn stored(s: &[u8]) -> Hash {
    let mut b = [0u8; record::RECORD_SIZE];
    octets::copy(s, &mut b);
    record::decode(b)
}

// The record of word i and the three behind it.
fn record_at(asked: &Asked, i: usize) -> Hash
    requires { i ≤ 4 }
{
    Hash {
        count: asked.number(i + 3) as usize,
        ..stored(asked.span(i, i + 2))
    }
}

// The route by its number, which protocol has for it: that crate is built on no part of the library, and so has no Route.
fn route_numbered(n: u64) -> Route {
    match n {
        0 => Route::Wide,
        1 => Route::Narrow,
        _ => Route::Rf,
    }
}

// What was made and spent; the record of zeros and no count where the call refused.
fn fed_or_zeros(fed: Result<Fed, Reason>) -> Fed
    ensures { fed_told fed ≡ record { answer = answer_of fed; hash = result.hash; multiplies = result.multiplies } }
{
    match fed {
        Ok(made) => made,
        Err(_) => Fed {
            hash: hash::zero(),
            multiplies: 0,
        },
    }
}

// An answer with the record that was made, which lies in the space, and what was spent on it.
fn made(fed: Result<Fed, Reason>, space: &mut [u8]) -> Said {
    let answer = u64::from(answer::number(&fed));
    let Fed { hash, multiplies } = fed_or_zeros(fed);
    octets::copy(&record::encode(hash), space);
    Said::numbers(&[answer, hash.count as u64, multiplies]).with_bytes(record::KEY_SIZE)
}

// The key that is expanded from h, in a record, and what was spent on it.
fn expanded(h: FieldElement) -> Fed {
    let e = polyval::key::expand(h);
    Fed {
        hash: Hash {
            key: e.key,
            ..hash::zero()
        },
        multiplies: e.multiplies,
    }
}

// Requests on a key.
pub(crate) fn of_key(asked: &Asked, space: &mut [u8]) -> Said {
    let s = asked.bytes(0);
    match asked.call {
        b'e' => made(
            Ok(expanded(FieldElement::from_bytes(asked.block(0)))),
            space,
        ),
        b's' => made(hash::start(s), space),
        _ => Said::numbers(&[u64::from(polyval::key::check(stored(s).key))]),
    }
}

// One of the three feeds.
fn feed(call: u8, h: Hash, route: Route, s: &[u8]) -> Result<Fed, Reason> {
    match call {
        b'b' => hash::feed_blocks(h, route, s),
        b'p' => hash::feed_padded(h, route, s),
        _ => hash::feed_piece(h, route, s),
    }
}

// The tag and what was spent; a tag of zeros and no count where finish refused.
fn finished_or_zeros(finished: Result<Finished, Reason>) -> Finished
    ensures { finish_told finished ≡ record { answer = answer_of finished; tag = result.tag; multiplies = result.multiplies } }
{
    match finished {
        Ok(made) => made,
        Err(_) => Finished {
            tag: [0; 16],
            multiplies: 0,
        },
    }
}

// What finish says: its tag lies in the space.
fn finished(finished: Result<Finished, Reason>, space: &mut [u8]) -> Said {
    let answer = u64::from(answer::number(&finished));
    let Finished { tag, multiplies } = finished_or_zeros(finished);
    octets::copy(&tag, space);
    Said::numbers(&[answer, multiplies])
}

// Requests whose first word is a route and whose second is a record.
pub(crate) fn on_route(asked: &Asked, space: &mut [u8]) -> Said {
    let route = route_numbered(asked.number(0));
    let h = record_at(asked, 1);
    match asked.call {
        b'f' => finished(hash::finish(h, route), space),
        _ => made(feed(asked.call, h, route, asked.bytes(5)), space),
    }
}

// The join of two records, as a feed says it.
fn joined(first: Hash, second: Hash, n: u64) -> Result<Fed, Reason> {
    Ok(join::join(first, second, n)?.into())
}

// Requests whose first word is a record. What reset spends its form leaves away.
pub(crate) fn of_record(asked: &Asked, space: &mut [u8]) -> Said {
    let h = record_at(asked, 0);
    match asked.call {
        b'j' => made(joined(h, record_at(asked, 4), asked.number(8)), space),
        _ => made(hash::reset(h), space),
    }
}
