// Joining the hashes of two parts of a message, without their bytes.
#![tactic(auto)]

pub mod halving;

ghost use Rattle.std.specs.Prelude.{◌≡◌};
ghost use Rattle.feeding.specs.Join.{join_of};
ghost use Rattle.feeding.specs.Told.{join_told};

use answer::Reason;
use feeding::{Hash, Joined};
use polyval::key;

// The record of the first part with the second behind it, which has n blocks: 14 where either has bytes
// pending or their keys are unlike.
pub fn join(first: Hash, second: Hash, n: u64) -> Result<Joined, Reason>
    ensures { join_told result ≡ join_of first second n }
{
    let h = key::h_of(first.key);
    if 0 < first.count || 0 < second.count || h != key::h_of(second.key) {
        return Err(Reason::BadRecord);
    }
    let made = halving::times(first.acc, h, n);
    Ok(Joined {
        hash: Hash {
            key: first.key,
            acc: made.product.add(second.acc),
            pending: [0u8; 16],
            count: 0,
        },
        dots: made.dots,
    })
}
