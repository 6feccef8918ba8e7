// Bytes that others chose, shown so that they can act on no terminal and none can be taken for an escape.
// Assumes nothing.
ghost use Rattle.std.specs.Prelude.{◌≡◌, ◌*◌, ◌<◌, length};
ghost use Rattle.reporting.specs.Escapes.{plain, hex_digit, hex_escape, shown, escaped};
ghost use Rattle.report.specs.Writing.{HasRoom, Adds};

use crate::writer::Writer;

// Whether a byte may be shown as it is: from 0x20 to 0x7E, and not the backslash.
fn is_plain(b: u8) -> bool
    ensures { result ≡ plain b }
{
    b != b'\\' && matches!(b, 0x20..=0x7E)
}

// The character of a number below 16. std's char::from_digit answers an Option of a char, so that each call would add
// a None that cannot come, and a cast. The crate digits has its own, by its own definition: neither crate stands on the other.
fn hex_digit(d: u8) -> u8
    requires { d < 16 }
    ensures { result ≡ hex_digit d }
{
    if d < 10 { b'0' + d } else { b'a' - 10 + d }
}

impl Writer<'_> {
    // \xNN for a byte.
    fn hex_escape(&mut self, b: u8)
        requires { HasRoom self.old 4 }
        ensures { Adds 4 self.old (hex_escape b) self.new }
    {
        self.word(&[b'\\', b'x', hex_digit(b / 16), hex_digit(b % 16)]);
    }

    // A byte as itself where it is plain, else as its escape.
    fn shown(&mut self, b: u8)
        requires { HasRoom self.old 4 }
        ensures { Adds 4 self.old (shown b) self.new }
    {
        if is_plain(b) {
            self.byte(b);
        } else {
            self.hex_escape(b);
        }
    }

    // Each byte of s, escaped where it is not plain.
    pub(crate) fn escaped(&mut self, s: &[u8])
        requires { HasRoom self.old (4 * length s.now) }
        ensures { Adds (4 * length s.now) self.old (escaped s.now) self.new }
    {
        for &b in s {
            self.shown(b);
        }
    }
}
