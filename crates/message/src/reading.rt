// What reading a whole frame is made of: its sealed part opened aside, and handed over where its content may
// stand. Assumes nothing.
ghost use Rattle.std.specs.Prelude.{◌≡◌, true, ◌+◌, ◌≤◌, length};
ghost use Rattle.answer.specs.Reasons.{answer_of};
ghost use Rattle.sealing.specs.Calls.{written};
ghost use Rattle.sealing.specs.Siv.{Opens};
ghost use Rattle.framing.specs.Kinds.{kind_number, is_allowed, max_frame_plaintext};
ghost use Rattle.framing.specs.Front.{Whole, taken_of, front_of};
ghost use Rattle.messaging.specs.Parts.{ad_in, nonce_in, sealed_in};
ghost use Rattle.messaging.specs.Message.{content_answer, message_of};
ghost use Rattle.messaging.specs.Reading.{reading_told};
ghost use Rattle.messaging.specs.Read.{or_refused, Reads};

use crate::content;
use aead::lengths;
use answer::Reason;
use framing::Extent;
use framing::kind::{Kind, MAX_PLAINTEXT};
use messaging::Message;

// Room for the longest plaintext of a frame, as long as the table says. Its contract says only how long it
// is, so that no proof meets its zeros. respond has zeros of any length of its own: a library crate stands on no program.
fn scratch() -> [u8; MAX_PLAINTEXT]
    ensures { length result ≡ max_frame_plaintext }
{
    [0; MAX_PLAINTEXT]
}

// Opens the sealed part of a whole frame. The nonce, the associated data and the sealed part are handed
// on where they lie.
fn open_sealed(key: &[u8], s: &[u8], taken: usize, out: &mut [u8]) -> Result<(), Reason>
    requires { (taken_of s.now ≡ taken) × (taken ≤ length s.now) }
    ensures { Opens key.now (nonce_in s.now) (ad_in s.now) (sealed_in s.now) out.old (answer_of result) out.new }
{
    siv::open(key, &s[4..16], &s[..4], &s[16..taken], out)
}

// Hands over an opened plaintext: what it says, and its bytes at the front of out. A refused one leaves
// out as it was.
fn deliver(kind: Kind, text: &[u8], taken: usize, out: &mut [u8]) -> Result<Message, Reason>
    requires { (is_allowed (kind_number kind) (length text.now + 16) ≡ true) × (length text.now ≤ length out.old) }
    ensures answer { reading_told result ≡ or_refused (content_answer (kind_number kind) text.now) (message_of (kind_number kind) text.now taken) }
    ensures memory { out.new ≡ written (content_answer (kind_number kind) text.now) text.now out.old }
{
    content::check(kind, text)?;
    octets::copy(text, out);
    Ok(content::message(kind, text, taken))
}

// A whole frame is opened aside, so that a refused position finds the output as it was. The lengths are asked here with
// the room of the output: siv asks them again with that of the part aside, which always holds the plaintext.
pub(crate) fn read_whole(
    key: &[u8],
    s: &[u8],
    whole: Extent,
    out: &mut [u8],
) -> Result<Message, Reason>
    requires { front_of s.now ≡ Whole (kind_number whole.kind) whole.taken }
    ensures { Reads key.now s.now out.old (reading_told result) out.new }
{
    let n = whole.taken - 32;
    lengths::check_open(key.len(), 12, 4, n + 16, out.len())?;
    let mut plain = scratch();
    open_sealed(key, s, whole.taken, &mut plain[..n])?;
    deliver(whole.kind, &plain[..n], whole.taken, out)
}
