// Answers that wait to be written, at the front of a buffer: each is put behind those that wait already. What waits is written out
// between two answers, while the longest answer still has room.
ghost use Rattle.std.specs.Prelude.{◌≡◌, drop};

use std::io::Write;
use std::{fmt, io};

// As many bytes may wait as leave room for the longest answer.
const WAITING: usize = 350000;

// The first `len` bytes of the buffer wait. std's Cursor over a slice is the same pair; but its write may write less and say so, and what
// stands behind its place would be cut out by hand all the same.
#[derive(Drop)]
pub struct Waiting<'b> {
    buffer: &'b mut [u8],
    len: usize,
}

impl<'b> Waiting<'b> {
    // Nothing waits yet.
    pub fn none(buffer: &'b mut [u8]) -> Waiting<'b>
        ensures nothing { result.len ≡ 0 }
        ensures buffer { result.buffer.now ≡ buffer.old }
    {
        Waiting { buffer, len: 0 }
    }

    // All of the buffer behind what waits. Until an answer is printed there, the bytes of a line's words lie there.
    pub fn arena(&self) -> &[u8]
        ensures { result.now ≡ drop self.now.len self.now.buffer.now }
    {
        self.buffer.get(self.len..).unwrap_or(&[])
    }

    // The same, to be written to.
    pub(crate) fn rest(&mut self) -> &mut [u8] {
        let at = self.len.min(self.buffer.len());
        &mut self.buffer[at..]
    }

    // Bytes as they are.
    pub(crate) fn text(&mut self, s: &[u8]) {
        let at = self.len;
        self.len = octets::put(self.buffer, at, s);
    }

    // One byte as it is.
    pub(crate) fn byte(&mut self, b: u8) {
        self.text(&[b]);
    }

    // Bytes in hex, `-` for none.
    pub(crate) fn hex(&mut self, s: &[u8]) {
        if s.is_empty() {
            return self.byte(b'-');
        }
        let n = digits::to_hex(s, self.rest());
        self.len = self.len.saturating_add(n);
    }

    // Ends an answer, and writes what waits where the next one might not fit behind it.
    pub(crate) fn line_end<W: Write>(&mut self, output: &mut W) -> io::Result<()> {
        self.byte(b'\n');
        if self.len < WAITING {
            return Ok(());
        }
        self.write(output)
    }

    // Writes what waits.
    pub fn write<W: Write>(&mut self, output: &mut W) -> io::Result<()> {
        let len = self.len.min(self.buffer.len());
        output.write_all(&self.buffer[..len])?;
        self.len = 0;
        Ok(())
    }
}

impl fmt::Write for Waiting<'_> {
    fn write_str(&mut self, s: &str) -> fmt::Result {
        self.text(s.as_bytes());
        Ok(())
    }
}
