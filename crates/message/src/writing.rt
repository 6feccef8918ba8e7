// What writing a frame is made of: what it asks before sealing, and a frame put together in the output. Assumes
// nothing.
ghost use Rattle.std.specs.Prelude.{◌≡◌, ◌++◌, ◌≤◌, ◌<◌, length, drop};
ghost use Rattle.answer.specs.Reasons.{answer_of};
ghost use Rattle.framing.specs.Kinds.{max_frame_plaintext};
ghost use Rattle.messaging.specs.Parts.{header};
ghost use Rattle.messaging.specs.Write.{plain_answer};
ghost use Rattle.message.specs.SealFrame.{SealsFrame};

use crate::content;
use answer::Reason;
use framing::kind::Kind;

// 10, 11, and what the content is refused for: what writing asks before sealing. The three rows of the table are searched
// for the kind and again for the length: to ask a row once found would be a second public call of frame beside is_allowed.
pub(crate) fn check_plain(kind: u8, text: &[u8]) -> Result<(), Reason>
    ensures { answer_of result ≡ plain_answer kind text.now }
{
    let known = Kind::try_from(kind)?;
    if !frame::kind::is_allowed(kind, text.len() + 16) {
        return Err(Reason::LengthForKind);
    }
    content::check(known, text)
}

// The first four bytes of a frame: its associated data.
fn header(kind: u8, sealed: usize) -> [u8; 4]
    requires { sealed < 65536 }
    ensures { result ≡ header kind sealed }
{
    let [low, high] = (sealed as u16).to_le_bytes();
    [framing::MARK, kind, low, high]
}

// Puts what stands before the sealed part to the front of out: the associated data, then the nonce.
fn put_head(ad: [u8; 4], nonce: &[u8], out: &mut [u8])
    requires { (length nonce.now ≡ 12) × (16 ≤ length out.old) }
    ensures { out.new ≡ ad ++ (nonce.now ++ drop 16 out.old) }
{
    octets::copy(&ad, out);
    octets::copy(nonce, &mut out[4..]);
}

// Seals a plaintext that may stand into a frame that has room: first the sealed part, behind the place of
// the head, and the head only where sealing has not refused.
pub(crate) fn seal_frame(
    kind: u8,
    key: &[u8],
    nonce: &[u8],
    text: &[u8],
    out: &mut [u8],
) -> Result<(), Reason>
    requires { (length text.now ≤ max_frame_plaintext) × (16 ≤ length out.old) }
    ensures { SealsFrame kind key.now nonce.now text.now out.old (answer_of result) out.new }
{
    let ad = header(kind, text.len() + 16);
    siv::seal(key, nonce, &ad, text, &mut out[16..])?;
    put_head(ad, nonce, out);
    Ok(())
}
