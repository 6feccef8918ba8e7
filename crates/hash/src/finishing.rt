// The tag of all that was fed.
ghost use Rattle.std.specs.Prelude.{◌≡◌};
ghost use Rattle.feeding.specs.Calls.{finish_of};
ghost use Rattle.feeding.specs.Told.{finish_told};

use crate::records;
use answer::Reason;
use feeding::{Finished, Hash, Route};
use polyval::rf::Grouping;
use polyval::route;

// The tag, the pending bytes filled with zeros to a block. The record is as it was.
pub fn finish(h: Hash, route: Route) -> Result<Finished, Reason>
    ensures { finish_told result ≡ finish_of route h }
{
    records::pending_at_most(15, h)?;
    let count = h.count;
    // A copy of the sixteen bytes: a part of h, lent, would lay all of h in memory.
    let pending = h.pending;
    let made = route::absorb(
        route,
        Grouping::Alone,
        h.key,
        records::held(h),
        &pending[..count],
    );
    Ok(Finished {
        tag: made.element.to_bytes(),
        multiplies: made.multiplies,
    })
}
