// Frames: what stands at the front of a byte string, and the scan of a log, as framing defines them; kinds and
// positions in modules of their own. Nothing here needs a key: writing and reading are in the crate message.
// Assumes nothing.
#![tactic(auto)]

use answer::Reason;
use framing::kind::row_of;
use framing::{Extent, MARK};

pub mod kind;
pub mod position;

ghost use Rattle.std.specs.Prelude.{◌≡◌};
ghost use Rattle.answer.specs.Reasons.{answer_of};
ghost use Rattle.framing.specs.Front.{front_of, front_told};
ghost use Rattle.framing.specs.Scan.{Scanned};

// Decides 9 to 12 for reading, for the scan and for the log program alike. Bytes behind the frame play
// no part; a byte that a check needs and that is not there is 12 at that check.
pub fn front_of(s: &[u8]) -> Result<Extent, Reason>
    ensures { front_told result ≡ front_of s.now }
{
    let [mark, ..] = s else {
        return Err(Reason::CutShort);
    };
    if *mark != MARK {
        return Err(Reason::NotAFrame);
    }
    let [_, number, ..] = s else {
        return Err(Reason::CutShort);
    };
    let row = row_of(*number).ok_or(Reason::UnknownKind)?;
    let [_, _, low, high, ..] = s else {
        return Err(Reason::CutShort);
    };
    let sealed = usize::from(u16::from_le_bytes([*low, *high]));
    if !kind::allows(row, sealed) {
        return Err(Reason::LengthForKind);
    }
    let taken = 16 + sealed;
    if s.len() < taken {
        return Err(Reason::CutShort);
    }
    let kind = row.kind;
    Ok(Extent { kind, taken })
}

// What a scan of a log finds: the longest prefix that is made of whole frames, how many they are, and why it
// stopped: what front_of says of the rest, or nothing where the log is at its exact end.
#[derive(Clone, Copy, Debug, PartialEq, Eq)]
pub struct Found<'a> {
    pub prefix: &'a [u8],
    pub frames: u64,
    pub stop: Result<(), Reason>,
}

// Frame after frame: how far the next place is, only the frame that stands here says.
pub fn scan<'a>(log: &'a [u8]) -> Found<'a>
    ensures scanned { Scanned log.now result.prefix.now result.frames (answer_of result.stop) }
    ensures place { result.prefix.ref_ptr ≡ log.entry.ref_ptr }
{
    let mut at: usize = 0;
    let mut frames: u64 = 0;
    while at < log.len() {
        match front_of(&log[at..]) {
            Ok(frame) => {
                at += frame.taken;
                frames += 1;
            }
            Err(reason) => {
                return Found {
                    prefix: &log[..at],
                    frames,
                    stop: Err(reason),
                };
            }
        }
    }
    Found {
        prefix: &log[..at],
        frames,
        stop: Ok(()),
    }
}
