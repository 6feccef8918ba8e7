// The record that a call starts from, and the records that calls return.
ghost use Rattle.std.specs.Prelude.{◌≡◌, ◌++◌, ◌+◌, ◌≤◌, length, Ok, [], ◌∷◌, ltb};
ghost use Rattle.answer.specs.Answers.{bad_record};
ghost use Rattle.answer.specs.First.{first, ◌⇒◌};
ghost use Rattle.answer.specs.Reasons.{answer_of};
ghost use Rattle.feeding.specs.Record.{filled, held_by, holding, pending_of, zero_hash};
ghost use Rattle.feeding.specs.Told.{fed_told};

use answer::Reason;
use feeding::{ExpandedKey, Fed, Hash, POWERS, Power};
use field::FieldElement;
use field::rf::Counted;
use polyval::block;

// 14 where the record claims more pending bytes than the call takes.
pub(crate) fn pending_at_most(most: usize, h: Hash) -> Result<(), Reason>
    ensures { answer_of result ≡ first (ltb most h.count ⇒ bad_record ∷ []) }
{
    if most < h.count {
        return Err(Reason::BadRecord);
    }
    Ok(())
}

// The element, with nothing spent yet.
pub(crate) fn held(h: Hash) -> Counted
    ensures { result ≡ held_by h }
{
    Counted {
        element: h.acc,
        multiplies: 0,
    }
}

// The pending bytes with s behind them, and zeros past that.
pub(crate) fn kept(h: Hash, s: &[u8]) -> [u8; 16]
    requires { h.count + length s.now ≤ 16 }
    ensures { result ≡ filled (pending_of h ++ s.now) }
{
    let front = block::pasted([0u8; 16], 0, &h.pending[..h.count]);
    block::pasted(front, h.count, s)
}

// The record that keeps `pending` for the next call, zeros past it.
pub(crate) fn holding(key: ExpandedKey, made: Counted, pending: &[u8]) -> Fed
    requires { length pending.now ≤ 16 }
    ensures { fed_told (Ok result) ≡ holding key made pending.now }
{
    Fed {
        hash: Hash {
            key,
            acc: made.element,
            pending: block::pasted([0u8; 16], 0, pending),
            count: pending.len(),
        },
        multiplies: made.multiplies,
    }
}

// The all_zero record, which stands in the place of one that a call did not make. Its key belongs to H = 0.
pub fn zero() -> Hash
    ensures { result ≡ zero_hash }
{
    let none = Power {
        h: FieldElement::ZERO,
        d: FieldElement::ZERO,
    };
    Hash {
        key: ExpandedKey {
            powers: [none; POWERS],
        },
        acc: FieldElement::ZERO,
        pending: [0u8; 16],
        count: 0,
    }
}
