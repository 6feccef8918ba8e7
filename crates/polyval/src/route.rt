// Blocks absorbed on the route that the caller chooses. The choice has no effect on the answer where the
// key's check says yes.
ghost use Rattle.std.specs.Prelude.{◌≡◌};
ghost use Rattle.rfc8452.specs.Blocks.{blocks};
ghost use Rattle.feeding.specs.Routes.{absorb_on};
ghost use Rattle.polyval.specs.Sizes.{sizes_of};

use crate::rf::Grouping;
use crate::{key, rf, soft};
use feeding::{ExpandedKey, Route};
use field::rf::Counted;

// The blocks of s. The routes by 64-bit and by 32-bit limbs read H alone, take one block after the other
// and count nothing; the R/F route takes them in groups where they are to be.
pub fn absorb(
    route: Route,
    grouping: Grouping,
    key: ExpandedKey,
    held: Counted,
    s: &[u8],
) -> Counted
    ensures { result ≡ absorb_on route (sizes_of grouping) key held (blocks s.now) }
{
    let h = key::h_of(key);
    let element = match route {
        Route::Wide => soft::absorb(h, held.element, s),
        Route::Narrow => soft::absorb32(h, held.element, s),
        Route::Rf => return rf::absorb(grouping, key.powers, held, s),
    };
    Counted { element, ..held }
}
