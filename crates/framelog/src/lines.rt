// What is printed of a log: a line for each frame, by what its reading answers, and the last line.
ghost use Rattle.std.specs.Prelude.{◌≡◌};
ghost use Rattle.reporting.specs.Lines.{AtFront};
ghost use Rattle.framing.specs.Front.{Whole, taken_of, front_of};

use answer::Reason;
use framing::kind;
use messaging::Message;
use report::{FrameAt, StopAt};

// Room for any line.
const LINE: usize = 4096;

// What the answer of a frame that was refused means.
fn refusal(why: Reason) -> &'static [u8] {
    match why {
        Reason::KeyLength => b"refused: the key is not 16 or 32 bytes long",
        Reason::TagDiffers => b"refused: the tag differs",
        Reason::OutOfRange => b"refused: the position is out of range",
        _ => b"refused",
    }
}

// What the reason means for which no frame follows: there are no more, or what stands there is none.
fn ending(end: Result<(), Reason>) -> &'static [u8] {
    match end {
        Ok(()) => b"the end of the log",
        Err(Reason::NotAFrame) => b"no frame stands here",
        Err(Reason::UnknownKind) => b"a frame of an unknown kind",
        Err(Reason::LengthForKind) => b"a length that its kind does not allow",
        Err(_) => b"a frame that is cut short",
    }
}

// The line of the frame at the front of held: what it says, where its answer is 0.
fn frame_line(key: &[u8], held: &[u8], frame: FrameAt, out: &mut [u8]) -> usize
    requires { front_of held.now ≡ Whole frame.kind (taken_of held.now) }
    ensures { AtFront result out.new }
{
    let mut plain = [0; kind::MAX_PLAINTEXT];
    let read = message::read(key, held, &mut plain);
    let answer = answer::number(&read);
    match read {
        Ok(Message::Position { position, .. }) => report::position_line(frame, position, out),
        Ok(Message::Text { len, .. }) => report::line(frame, answer, b"text: ", &plain[..len], out),
        Ok(Message::CheckIn { .. }) => report::line(frame, answer, b"check-in", b"", out),
        Err(why) => report::line(frame, answer, refusal(why), b"", out),
    }
}

// Prints the line of the frame at the front of held, which is whole and of the kind that the line says.
pub(crate) fn put_frame<R: Print>(rt: &R, key: &[u8], held: &[u8], frame: FrameAt)
    requires { front_of held.now ≡ Whole frame.kind (taken_of held.now) }
{
    let mut out = [0; LINE];
    let n = frame_line(key, held, frame, &mut out);
    let _ = rt.write_all(&out[..n]);
}

// Prints the last line.
pub(crate) fn put_stop<R: Print>(rt: &R, end: Result<(), Reason>, at: StopAt) {
    let mut out = [0; LINE];
    let n = report::stop_line(answer::number(&end), at, ending(end), &mut out);
    let _ = rt.write_all(&out[..n]);
}
