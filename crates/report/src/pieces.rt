// The pieces of a line: its head, the fields of a position, why a scan stopped. Assumes nothing.
ghost use Rattle.std.specs.Prelude.{◌++◌, ◌+◌, ◌≤◌, length};
ghost use Rattle.reporting.specs.Numbers.{decimal, fixed};
ghost use Rattle.reporting.specs.Lines.{head_of, angles_of, height_of, stop_of};
ghost use Rattle.report.specs.Writing.{HasRoom, Adds};

use crate::writer::Writer;
use crate::{FrameAt, StopAt};

impl Writer<'_> {
    // A word, and n behind it in decimal.
    fn number(&mut self, word: &[u8], n: u64)
        requires { HasRoom self.old (length word.now + 20) }
        ensures { Adds (length word.now + 20) self.old (word.now ++ decimal n) self.new }
    {
        self.word(word);
        self.decimal(n);
    }

    // A word, and z behind it in units of 10^-places.
    fn measure(&mut self, word: &[u8], z: i32, places: u32)
        requires room { HasRoom self.old (length word.now + 32) }
        requires few_places { places ≤ 10 }
        ensures { Adds (length word.now + 32) self.old (word.now ++ fixed places z) self.new }
    {
        self.word(word);
        self.fixed(z, places);
    }

    // What each line of a frame begins with.
    pub(crate) fn head(&mut self, frame: FrameAt, answer: u8)
        requires { HasRoom self.old 62 }
        ensures { Adds 62 self.old (head_of frame.offset frame.kind answer) self.new }
    {
        self.decimal(frame.offset);
        self.number(b" ", u64::from(frame.kind));
        self.number(b" ", u64::from(answer));
    }

    // Latitude and longitude in degrees.
    pub(crate) fn angles(&mut self, lat: i32, lon: i32)
        requires { HasRoom self.old 82 }
        ensures { Adds 82 self.old (angles_of lat lon) self.new }
    {
        self.measure(b"lat ", lat, 7);
        self.measure(b" deg, lon ", lon, 7);
        self.word(b" deg");
    }

    // Altitude in metres, and time in seconds.
    pub(crate) fn height(&mut self, alt: i32, time: u32)
        requires { HasRoom self.old 69 }
        ensures { Adds 69 self.old (height_of alt time) self.new }
    {
        self.measure(b", alt ", alt, 2);
        self.number(b" m, time ", u64::from(time));
        self.word(b" s");
    }

    // Why a scan stopped, where, and after how many frames.
    pub(crate) fn stop(&mut self, reason: u8, at: StopAt)
        requires { HasRoom self.old 80 }
        ensures { Adds 80 self.old (stop_of reason at.offset at.frames) self.new }
    {
        self.number(b"stop ", u64::from(reason));
        self.number(b" at ", at.offset);
        self.number(b", frames ", at.frames);
        self.word(b": ");
    }
}
