// A log that a program reads: what it answers by the log's length, and one step of a reader that holds only
// some bytes of it. The pieces may have any size, as a file's reads have; proofs/InPieces.antt shows that
// such a reader reports what a scan of the whole log finds. Assumes nothing.
#![tactic(auto)]

ghost use Rattle.std.specs.Prelude.{◌≡◌};
ghost use Rattle.answer.specs.Reasons.{answer_of};
ghost use Rattle.sealing.specs.Calls.{log_answer};
ghost use Rattle.window.specs.Step.{step_of, step_told};
ghost use Rattle.window.specs.Slide.{Slid};

use answer::Reason;
use framing::Extent;

// A program's answer to a log of so many bytes, before any frame of it is read: 15 where it is too long.
pub fn log_answer(len: usize) -> Result<(), Reason>
    ensures { answer_of result ≡ log_answer len }
{
    if sealing::MAX_LOG < len {
        return Err(Reason::LogTooLong);
    }
    Ok(())
}

// What a reader does next: it reports the frame at the front of the bytes that it holds and drops it, or
// it reads more of the log, or it stops for the reason given, or for none at the log's exact end.
#[derive(Clone, Copy, Debug, PartialEq, Eq)]
pub enum Step {
    Frame(Extent),
    More,
    End(Result<(), Reason>),
}

// The step of a reader that holds these bytes. last says that the log has no more.
#[tactic(auto, unfolding(crate::specs::Step::step_of))]
pub fn next_step(held: &[u8], last: bool) -> Step
    ensures { step_told result ≡ step_of last held.now }
{
    if held.is_empty() {
        return if last { Step::End(Ok(())) } else { Step::More };
    }
    match frame::front_of(held) {
        Ok(frame) => Step::Frame(frame),
        Err(reason) => {
            if !last && reason == Reason::CutShort {
                return Step::More;
            }
            Step::End(Err(reason))
        }
    }
}

// Moves the bytes from..to to the front, and answers how many they are: what a reader holds, with the
// room behind it free. Holds none and moves nothing where from..to is no part of the window: any two numbers may come, since
// a type of ordered ones would ask more of callers.
pub fn slide(window: &mut [u8], from: usize, to: usize) -> usize
    ensures { Slid window.old from to window.new result }
{
    if to < from || window.len() < to {
        return 0;
    }
    window.copy_within(from..to, 0);
    to - from
}
