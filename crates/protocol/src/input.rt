// Standard input in pieces, cut into lines.
ghost use Rattle.std.specs.Prelude.{◌≡◌};
ghost use Rattle.protocol.specs.Input.{nothing_read, between_lines};

use crate::parts;
use std::io;
use std::io::Read;

// Where reading stands between two lines: the bytes of the piece from `from` to `to` were not looked at yet. Two indices and no slice: a
// slice would lend the piece that the next read writes.
#[derive(Clone, Copy)]
pub struct Reading {
    from: usize,
    to: usize,
}

// What comes next of the input: a line of so many characters, one that has more than its buffer holds, or nothing.
#[derive(Clone, Copy)]
pub enum Next {
    Line(usize),
    TooLong,
    Nothing,
}

impl Reading {
    // Nothing was read yet.
    pub fn start() -> Reading
        ensures { between_lines result ≡ nothing_read }
    {
        Reading { from: 0, to: 0 }
    }
}

// More characters of the line: how many it has then, none where its buffer does not hold them.
fn keep(s: &[u8], line: &mut [u8], have: Option<usize>) -> Option<usize> {
    let end = have?.checked_add(s.len())?;
    line.get_mut(have?..end)?.copy_from_slice(s);
    Some(end)
}

// The line, where its end or that of the input was found.
fn ended(have: Option<usize>) -> Next {
    have.map_or(Next::TooLong, Next::Line)
}

// The next line of the input, or the error of a read that failed. A last line may lack its line end. Nothing says that the
// input ends, so the reads are counted up to a number that no run comes to.
pub fn next_line<R: Read>(
    input: &mut R,
    piece: &mut [u8],
    line: &mut [u8],
    reading: &mut Reading,
) -> io::Result<Next> {
    let mut have = Some(0);
    for _ in 0..u64::MAX {
        if let Some(unread) = piece.get(reading.from..reading.to) {
            let (text, rest) = parts::before(unread, b'\n');
            have = keep(text, line, have);
            if !rest.is_empty() {
                reading.from += text.len() + 1;
                return Ok(ended(have));
            }
        }
        let n = input.read(piece)?;
        *reading = Reading { from: 0, to: n };
        if n == 0 {
            return Ok(match have {
                Some(0) => Next::Nothing,
                _ => ended(have),
            });
        }
    }
    Ok(Next::Nothing)
}
