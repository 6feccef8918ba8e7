// Where a reader of a log stands.
ghost use Rattle.std.specs.Prelude.{◌≡◌, ◌+◌, ◌-◌, ◌*◌, ◌≤◌, ◌<◌};
ghost use Rattle.sealing.specs.Limits.{max_log};

// How many bytes of a log are held at a time: the longest frame is shorter.
pub(crate) const WINDOW: usize = 4096;

// A window of 4,096 bytes holds from..to of a log, and left more bytes are to be read; offset and frames count what was
// reported. What was reported, what is held and what is left make up a log that is not too long, and each frame
// that was counted has a byte at least. What is held is two indices and no slice: a slice would lend the window that the next read writes.
#[derive(Clone, Copy)]
pub(crate) struct Place {
    pub(crate) from: usize,
    pub(crate) to: usize,
    pub(crate) left: usize,
    pub(crate) offset: usize,
    pub(crate) frames: u64,
    pub(crate) ghost forwards: { from ≤ to },
    pub(crate) ghost within: { to ≤ 4096 },
    pub(crate) ghost log: { offset + (to - from) + left ≤ max_log },
    pub(crate) ghost counted: { frames ≤ offset },
}

impl Place {
    ghost use Rattle.framelog.specs.Place.{budget};

    // At the start of a log of len bytes, of which nothing is held yet.
    pub(crate) fn start(len: usize) -> Place
        requires { len ≤ max_log }
    {
        Place {
            from: 0,
            to: 0,
            left: len,
            offset: 0,
            frames: 0,
        }
    }

    // Behind a frame that was reported.
    pub(crate) fn after_frame(self, taken: usize) -> Place
        requires { (0 < taken) × (taken ≤ self.to - self.from) }
        ensures { budget result < budget self }
    {
        Place {
            from: self.from + taken,
            to: self.to,
            left: self.left,
            offset: self.offset + taken,
            frames: self.frames + 1,
        }
    }

    // What is held is at the window's front, and so many bytes were read behind it: none where the file has become shorter, and
    // then nothing is left.
    pub(crate) fn after_read(self, more: usize) -> Place
        requires left { (0 < self.left) × (more ≤ self.left) }
        requires room { self.to - self.from + more ≤ 4096 }
        ensures { budget result < budget self }
    {
        Place {
            from: 0,
            to: self.to - self.from + more,
            left: if more == 0 { 0 } else { self.left - more },
            offset: self.offset,
            frames: self.frames,
        }
    }
}
