// What people read of a log: the line of each frame, and the last line. Nothing that a frame holds can act on a
// terminal or be taken for an escape (reporting/proofs). Assumes nothing.
#![tactic(auto)]

mod escapes;
mod numbers;
mod pieces;
mod writer;

ghost use Rattle.std.specs.Prelude.{◌≡◌, ◌+◌, length, leb};
ghost use Rattle.reporting.specs.Lines.{line_of, position_line_of, stop_line_of, room_for, Line, AtFront};

use crate::writer::Writer;
use framing::position::Position;

// Room for all of a line but the bytes that are escaped, each of which may take four.
pub const ROOM: usize = 256;

// Which frame of a log a line speaks of: where in the log it begins, and the number of its kind.
#[derive(Clone, Copy)]
pub struct FrameAt {
    pub offset: u64,
    pub kind: u8,
}

// Where a scan of a log stopped: at which byte, and how many frames stand before.
#[derive(Clone, Copy)]
pub struct StopAt {
    pub offset: u64,
    pub frames: u64,
}

// Whether room is enough for a line that holds n bytes to escape.
fn is_enough(room: usize, n: usize) -> bool
    ensures { result ≡ leb (room_for n) room }
{
    ROOM <= room && n <= (room - ROOM) / 4
}

// Each line below asks for its room, begins a Writer and ends with a newline and the count. One function for that would take the middle as a
// closure, and its contract would have to say of any closure what it adds: no shorter than three lines that say it themselves.

// The line of a frame: its length, or 0 where out has no room, which it then leaves as it was. A count of what stands
// at the front of out and not an Option: a caller prints so many bytes, and would turn None into 0 to do so. Kind and answer are any
// u8 and no enum: a narrower type would ask more of callers.
pub fn line(frame: FrameAt, answer: u8, label: &[u8], s: &[u8], out: &mut [u8]) -> usize
    ensures line { Line (length label.now + length s.now) (line_of frame.offset frame.kind answer label.now s.now) out.old out.new result }
    ensures at_front { AtFront result out.new }
{
    if !is_enough(out.len(), label.len() + s.len()) {
        return 0;
    }
    let mut line = Writer::new(out);
    line.head(frame, answer);
    line.byte(b' ');
    line.escaped(label);
    line.escaped(s);
    line.byte(b'\n');
    line.at
}

// The line of a position that was opened.
pub fn position_line(frame: FrameAt, p: Position, out: &mut [u8]) -> usize
    ensures line { Line 0 (position_line_of frame.offset frame.kind p.lat p.lon p.alt p.time) out.old out.new result }
    ensures at_front { AtFront result out.new }
{
    if !is_enough(out.len(), 0) {
        return 0;
    }
    let mut line = Writer::new(out);
    line.head(frame, 0);
    line.word(b" position: ");
    line.angles(p.lat, p.lon);
    line.height(p.alt, p.time);
    line.byte(b'\n');
    line.at
}

// The last line of a log's report, with a note that is escaped.
pub fn stop_line(reason: u8, at: StopAt, note: &[u8], out: &mut [u8]) -> usize
    ensures line { Line (length note.now) (stop_line_of reason at.offset at.frames note.now) out.old out.new result }
    ensures at_front { AtFront result out.new }
{
    if !is_enough(out.len(), note.len()) {
        return 0;
    }
    let mut line = Writer::new(out);
    line.stop(reason, at);
    line.escaped(note);
    line.byte(b'\n');
    line.at
}
