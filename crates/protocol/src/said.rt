// Answers as text.
//
// A form says how an answer is printed. Its capitals stand for what a call said: N the next number, I the next one as
// the bits of a signed one, X and Y the next one as a word of 16 and of 8 hex digits, and _ passes one over; E the first 16
// bytes of the space, B as many as the call counted, A and P the 16 behind those and the next 16 (a record lies there as its key,
// its element and its pending bytes); O the whole output buffer. A comma is a space, and all else is itself. Alternatives have
// | between them. Letters are bytes of the form: a `match` over a letter is all that is known of it.
ghost use Rattle.std.specs.Prelude.{◌≡◌};
ghost use Rattle.protocol.specs.Said.{numbers_of, in_kind, with_bytes};

use crate::parts;
use crate::table::Request;
use crate::waiting::Waiting;
use std::fmt::Write as _;
use std::io;
use std::io::Write;

// How many numbers the longest answer has.
const NUMBERS: usize = 5;

// What a call said: which alternative of its request's form it takes, how many bytes of the space it speaks of, and its
// numbers in their order. The alternative is a number, since this crate knows the alternatives of a form only by their places in it.
#[derive(Clone, Copy)]
pub struct Said {
    pub kind: usize,
    pub bytes: usize,
    pub numbers: [u64; NUMBERS],
}

impl Said {
    // The first of so many numbers, zeros behind them, in the first alternative, and no bytes but those that the form's letters count.
    pub fn numbers(s: &[u64]) -> Said
        ensures { result ≡ numbers_of s.now }
    {
        let count = s.len().min(NUMBERS);
        let mut numbers = [0; NUMBERS];
        numbers[..count].copy_from_slice(&s[..count]);
        Said {
            kind: 0,
            bytes: 0,
            numbers,
        }
    }

    // The same in another alternative of the form.
    pub fn of_kind(self, kind: usize) -> Said
        ensures { result ≡ in_kind self kind }
    {
        Said { kind, ..self }
    }

    // The same with so many bytes of the space.
    pub fn with_bytes(self, bytes: usize) -> Said
        ensures { result ≡ with_bytes self bytes }
    {
        Said { bytes, ..self }
    }
}

// Whether a letter of a form takes a number.
fn is_number(letter: u8) -> bool {
    matches!(letter, b'N' | b'I' | b'X' | b'Y' | b'_')
}

// A number as a letter of the form asks. Writing to what waits does not fail.
fn numeric(letter: u8, n: u64, out: &mut Waiting) {
    let _ = match letter {
        b'N' => write!(out, "{n}"),
        b'I' => write!(out, "{}", ((n & 0xFFFF_FFFF) as u32).cast_signed()),
        b'X' => write!(out, "{n:016x}"),
        b'Y' => write!(out, "{n:08x}"),
        _ => Ok(()),
    };
}

// The bytes of the space that a letter of the form asks for, where it asks for any; the call counted n. An output buffer is the
// first `room`.
fn bytes_of(letter: u8, space: &[u8], n: usize, room: usize) -> Option<&[u8]> {
    let rest = parts::part(space, n, space.len());
    match letter {
        b'E' => Some(parts::part(space, 0, 16)),
        b'B' => Some(parts::part(space, 0, n)),
        b'A' => Some(parts::part(rest, 0, 16)),
        b'P' => Some(parts::part(rest, 16, 32)),
        b'O' => Some(parts::part(space, 0, room)),
        _ => None,
    }
}

// A letter of a form that takes no number.
fn piece(letter: u8, s: Said, space: &[u8], room: usize, out: &mut Waiting) {
    match bytes_of(letter, space, s.bytes, room) {
        Some(bytes) => out.hex(bytes),
        None => out.byte(if letter == b',' { b' ' } else { letter }),
    }
}

// An answer in its form.
fn in_form(form: &[u8], s: Said, space: &[u8], room: usize, out: &mut Waiting) {
    let mut numbers = s.numbers.iter();
    for letter in form {
        if is_number(*letter) {
            numeric(*letter, numbers.next().copied().unwrap_or(0), out);
        } else {
            piece(*letter, s, space, room, out);
        }
    }
}

// What a call said, in the form that the table has for its request.
fn put(q: Request, s: Said, space: &[u8], out: &mut Waiting) {
    let form = q.form.split(|b| *b == b'|').nth(s.kind).unwrap_or(&[]);
    in_form(form, s, space, q.words.room.unwrap_or(0), out);
}

// The answer to a line, behind what waits: what a call said to the request that it is, or `?` where it is none. Or the error of a
// write that failed.
pub fn answered<W: Write>(
    output: &mut W,
    told: Option<(Request, Said)>,
    space: &[u8],
    out: &mut Waiting,
) -> io::Result<()> {
    match told {
        Some((q, s)) => put(q, s, space, out),
        None => out.byte(b'?'),
    }
    out.line_end(output)
}
