// Records with nothing absorbed: under a new key, and under the same one.
ghost use Rattle.std.specs.Prelude.{◌≡◌};
ghost use Rattle.feeding.specs.Calls.{start_of, reset_of};
ghost use Rattle.feeding.specs.Told.{fed_told};

use crate::records;
use answer::Reason;
use feeding::{Fed, Hash};
use field::FieldElement;
use field::rf::Counted;
use polyval::{block, key};

// A record under a key of 16 bytes, with nothing absorbed. The key is expanded for every route.
pub fn start(key: &[u8]) -> Result<Fed, Reason>
    ensures { fed_told result ≡ start_of key.now }
{
    let h = block::block_of(key);
    if key.len() != 16 {
        return Err(Reason::KeyLength);
    }
    let expanded = key::expand(h);
    let made = Counted {
        element: FieldElement::ZERO,
        multiplies: expanded.multiplies,
    };
    Ok(records::holding(expanded.key, made, &[]))
}

// The same key, with nothing absorbed and nothing pending.
pub fn reset(h: Hash) -> Result<Fed, Reason>
    ensures { fed_told result ≡ reset_of h }
{
    records::pending_at_most(15, h)?;
    let made = Counted {
        element: FieldElement::ZERO,
        multiplies: 0,
    };
    Ok(records::holding(h.key, made, &[]))
}
