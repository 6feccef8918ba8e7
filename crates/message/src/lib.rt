// Messages: writing a frame and reading one, as messaging defines them (document 01, "Frame"). What stands at
// the front of a byte string is in the crate frame, sealing and opening are in siv. Assumes nothing.
#![tactic(auto)]

mod content;
mod reading;
mod writing;

ghost use Rattle.messaging.specs.Reading.{reading_told};
ghost use Rattle.messaging.specs.Write.{Writes, written_told};
ghost use Rattle.messaging.specs.Read.{Reads};

use aead::lengths;
use answer::Reason;
use messaging::Message;

// Writes a frame of this kind, sealed, to the front of out, which needs 32 bytes more than the plaintext
// has, and answers how many bytes it has. Nothing is written where it refuses. Any number may come as the kind: a
// narrower type would ask more of callers. The lengths are asked here and again by siv, which takes any: an output
// without the 16 bytes of the head has no part to lend, and a wrong key or nonce is told before it.
pub fn write(
    kind: u8,
    key: &[u8],
    nonce: &[u8],
    plaintext: &[u8],
    out: &mut [u8],
) -> Result<usize, Reason>
    ensures { Writes kind key.now nonce.now plaintext.now out.old (written_told result) out.new }
{
    writing::check_plain(kind, plaintext)?;
    let n = plaintext.len();
    let room = out.len().saturating_sub(16);
    lengths::check_seal(key.len(), nonce.len(), 4, n, room)?;
    writing::seal_frame(kind, key, nonce, plaintext, out)?;
    Ok(n + 32)
}

// Reads the frame at the front of s and ignores what follows it. The plaintext goes to the front of out,
// which needs as many bytes; nothing is written where it refuses.
pub fn read(key: &[u8], s: &[u8], out: &mut [u8]) -> Result<Message, Reason>
    ensures { Reads key.now s.now out.old (reading_told result) out.new }
{
    let whole = frame::front_of(s)?;
    reading::read_whole(key, s, whole, out)
}
