// The front of a lent buffer, written piece by piece: a byte, and a word as it is. What each method of this crate
// puts stands behind what was put before. Assumes nothing.
ghost use Rattle.std.specs.Prelude.{◌≡◌, [], ◌∷◌, length};
ghost use Rattle.report.specs.Writing.{HasRoom, Adds};

// The buffer, and how many bytes of it are written. std's Cursor over a slice is the same pair; but its write answers each piece with a
// Result of a count, since it may write less, and each piece would throw that away.
#[derive(Drop)]
pub(crate) struct Writer<'a> {
    out: &'a mut [u8],
    pub(crate) at: usize,
}

impl<'a> Writer<'a> {
    // At the front of out, where nothing is written yet.
    pub(crate) fn new(out: &'a mut [u8]) -> Writer<'a>
        ensures same { result.out.ghost_name ≡ out.entry.ghost_name }
        ensures bytes { result.out.now ≡ out.old }
        ensures nothing { result.at ≡ 0 }
    {
        Writer { out, at: 0 }
    }

    // One byte.
    pub(crate) fn byte(&mut self, b: u8)
        requires { HasRoom self.old 1 }
        ensures { Adds 1 self.old (b ∷ []) self.new }
    {
        self.out[self.at] = b;
        self.at += 1;
    }

    // A word as it is.
    pub(crate) fn word(&mut self, word: &[u8])
        requires { HasRoom self.old (length word.now) }
        ensures { Adds (length word.now) self.old word.now self.new }
    {
        self.at = octets::put(self.out, self.at, word);
    }
}
