// The frames of a log, one after the other, through a window on it.
ghost use Rattle.std.specs.Prelude.{◌-◌, ◌≤◌, ◌<◌, length, IfSome};
ghost use Rattle.files.specs.Files.{Read, got};
ghost use Rattle.sealing.specs.Limits.{max_log};
ghost use Rattle.framelog.specs.Place.{budget};

use crate::lines::{put_frame, put_stop};
use crate::place::{Place, WINDOW};
use files::NamedFile;
use report::{FrameAt, StopAt};
use std::fs::File;
use window::Step;

// One read to where there is room for a byte at least, so that a count of 0 says that the log is at its end.
fn read_some<R: Eprint>(rt: &R, file: &mut NamedFile<'_, File>, room: &mut [u8]) -> Option<usize>
    requires { 0 < length room.old }
    ensures { Read (got result) room.new }
{
    file.read(rt, room)
}

// Reads more of the log behind what the window holds, which has room. A file that has become shorter ends there; where
// the read fails the reader stops.
fn refill<R: Eprint>(
    rt: &R,
    file: &mut NamedFile<'_, File>,
    window: &mut [u8; WINDOW],
    p: Place,
) -> Option<Place>
    requires { (0 < p.left) × (p.to - p.from < 4096) }
    ensures { IfSome result (λ next. budget next < budget p) }
{
    let held = window::slide(window, p.from, p.to);
    let end = held + p.left.min(WINDOW - held);
    let more = read_some(rt, file, &mut window[held..end])?;
    Some(p.after_read(more))
}

// One step: a frame's line, more of the log, or the last line, where the reader stops.
fn turn<R: Print + Eprint>(
    rt: &R,
    file: &mut NamedFile<'_, File>,
    key: &[u8],
    window: &mut [u8; WINDOW],
    p: Place,
) -> Option<Place>
    ensures { IfSome result (λ next. budget next < budget p) }
{
    let held = &window[p.from..p.to];
    match window::next_step(held, p.left == 0) {
        Step::Frame(extent) => {
            let frame = FrameAt {
                offset: p.offset as u64,
                kind: extent.kind.into(),
            };
            put_frame(rt, key, held, frame);
            Some(p.after_frame(extent.taken))
        }
        Step::More => refill(rt, file, window, p),
        Step::End(end) => {
            let at = StopAt {
                offset: p.offset as u64,
                frames: p.frames,
            };
            put_stop(rt, end, at);
            None
        }
    }
}

// The frames of a log of so many bytes.
pub(crate) fn walk<R: Print + Eprint>(
    rt: &R,
    file: &mut NamedFile<'_, File>,
    key: &[u8],
    len: usize,
)
    requires { len ≤ max_log }
{
    let mut window = [0; WINDOW];
    let mut p = Place::start(len);
    while let Some(next) = turn(rt, file, key, &mut window, p) {
        p = next;
    }
}
