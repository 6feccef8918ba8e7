// GHASH (NIST SP 800-38D) by way of POLYVAL (RFC 8452, appendix A).
#![tactic(auto)]

pub mod parts;

ghost use Rattle.std.specs.Prelude.{◌≡◌};
ghost use Rattle.ghash.specs.Calls.{hashed_of, hashed_told};

use answer::Reason;
use parts::Ghash;

// The hash of whole blocks under a key of 16 bytes.
pub fn ghash(key: &[u8], blocks: &[u8]) -> Result<[u8; 16], Reason>
    ensures { hashed_told result ≡ hashed_of key.now blocks.now }
{
    let begun = Ghash::start(key)?;
    if blocks.len() % 16 != 0 {
        return Err(Reason::NotWholeBlocks);
    }
    Ok(begun.feed_padded(blocks).finish())
}
