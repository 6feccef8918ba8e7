// The table of requests, and the request that a line is.
//
// A row is a line of four words: the request's name; two letters by which the program that answers knows it; a letter for each
// word that follows the name (module words); the form of its answer (module said).
use crate::waiting::Waiting;
use crate::words::Words;
use crate::{parts, words};

// What a row says behind its name: its two letters, the letters of its words, the form of its answer.
#[derive(Clone, Copy)]
struct Row<'t> {
    group: u8,
    call: u8,
    words: &'t [u8],
    form: &'t [u8],
}

// A request: the two letters of its row, its words, the form of its answer.
#[derive(Clone, Copy)]
pub struct Request<'t> {
    pub group: u8,
    pub call: u8,
    pub words: Words,
    pub(crate) form: &'t [u8],
}

// What stands behind a name in its row.
fn row_behind(rest: &[u8]) -> Option<Row<'_>> {
    let (letters, rest) = parts::cut(rest, b' ');
    let (words, form) = parts::cut(rest, b' ');
    Some(Row {
        group: *letters.first()?,
        call: *letters.get(1)?,
        words,
        form,
    })
}

// The row of a name.
fn row_of<'t>(table: &'t [u8], name: &[u8]) -> Option<Row<'t>> {
    let (_, rest) = table
        .split(|b| *b == b'\n')
        .map(|row| parts::cut(row, b' '))
        .find(|(first, _)| *first == name)?;
    row_behind(rest)
}

// The request that a line is, if it is one. A stored key has `key` bytes. The bytes of its words lie behind what waits.
pub fn understood<'t>(
    table: &'t [u8],
    key: usize,
    line: &[u8],
    waiting: &mut Waiting,
) -> Option<Request<'t>> {
    let (name, rest) = parts::before(line, b' ');
    let row = row_of(table, name)?;
    let words = words::read(row.words, key, rest, waiting.rest())?;
    Some(Request {
        group: row.group,
        call: row.call,
        words,
        form: row.form,
    })
}
