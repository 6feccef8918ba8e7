// Answers the line protocol over the library: a line of standard input for a line of standard output. It reads
// in pieces, keeps one line of at most 300,000 characters, and writes its answers many at a time.
//
// What is read and how it is printed is the crate protocol's; here are the calls. A request has a row in the table below. Its
// first letter names the module function that has its call, its second letter the arm there. So a new request is one row and
// one arm: the row's letters say what its words are (protocol/src/words), its form how its answer is printed
// (protocol/src/said), and what the arm says are numbers, and bytes that it put into the space. Then the second program
// (tests/second/lines.py), the requests that are tried (tests/requests) and the stored run (tests/vectors) learn it too.
#![tactic(auto)]

mod arithmetic;
mod frames;
mod hashing;
mod sealed;

ghost use Rattle.std.specs.Prelude.{◌≡◌, length};

use protocol::input::{Next, Reading};
use protocol::said::Said;
use protocol::waiting::Waiting;
use protocol::words::Asked;
use protocol::{input, said, table};
use std::io;
use std::io::{Read, Write};

// What is read of the input at a time.
const PIECE: usize = 65536;

// The longest line that is a request.
const LINE: usize = 300000;

// Answers that wait to be written: what may wait, and the longest answer, or all the bytes that a line can spell.
const ANSWERS: usize = 700000;

// The requests, a row each: name, letters of its function and arm, letters of its words, form of its answer.
const REQUESTS: &[u8] = b"product64 wp xx X,X\n\
      bmul32 wb yy Y\n\
      reverse64 wr x X\n\
      reverse32 wh y Y\n\
      add ea ee E\n\
      dot ed ee E\n\
      dot32 en ee E\n\
      rf ef ee E\n\
      mulx em e E\n\
      reverse er e E\n\
      expand ke e B,__N\n\
      start ks b N,B:A:P:N,N\n\
      check kc k N\n\
      blocks hb tKEEnb N,B:A:P:N,N\n\
      padded hp tKEEnb N,B:A:P:N,N\n\
      piece hi tKEEnb N,B:A:P:N,N\n\
      finish hf tKEEn N,E,N\n\
      reset rr KEEn N,B:A:P:N\n\
      join rj KEEnKEEnn N,B:A:P:N,N\n\
      ghash cg bb N,E\n\
      aes ca ce E\n\
      seal ss bbbbr N,O\n\
      open so bbbbr N,O\n\
      write fw ibbbr N,N,O\n\
      read fr bbr position,I,I,I,N,N,O|text,N,N,O|check-in,N,O|refused,N,O\n\
      scan fs b B,N,N";

// A buffer of zeros. A proof knows its length alone, since the list is too long to compute.
fn zeros<const N: usize>() -> [u8; N]
    ensures { length result ≡ N }
{
    [0; N]
}

// What the call says that a line asks for. Bytes that it says it puts into the space. The letters are the table's, and each arm takes
// what its call needs: a match says that most plainly, here and over `call` in each module.
fn carry_out(group: u8, asked: &Asked, space: &mut [u8]) -> Said {
    match group {
        b'w' => arithmetic::on_words(asked),
        b'e' => arithmetic::on_elements(asked, space),
        b'k' => hashing::of_key(asked, space),
        b'h' => hashing::on_route(asked, space),
        b'r' => hashing::of_record(asked, space),
        b'c' => sealed::of_blocks(asked, space),
        b's' => sealed::seal_or_open(asked, space),
        b'f' => frames::answer(asked, space),
        _ => Said::numbers(&[]),
    }
}

// The answer to a line of n characters, behind those that wait. Until it is printed there, the bytes of the line's words lie there.
// Once they do the line is needed no more, and its buffer is the space that a call writes to.
fn answer<W: Write>(
    output: &mut W,
    line: &mut [u8],
    n: usize,
    waiting: &mut Waiting,
) -> io::Result<()> {
    let text = line.get(..n).unwrap_or(&[]);
    let Some(q) = table::understood(REQUESTS, record::KEY_SIZE, text, waiting) else {
        return said::answered(output, None, line, waiting);
    };
    let room = q.words.room_in(line);
    let asked = Asked {
        call: q.call,
        words: q.words,
        arena: waiting.arena(),
    };
    let said = carry_out(q.group, &asked, &mut line[..room]);
    said::answered(output, Some((q, said)), line, waiting)
}

// Answers every line of the input; one that is too long is no request. Where a read fails, what waits is written before the error
// is handed back. Nothing says that the input ends, so the lines are counted up to a number that no run comes to.
fn run<R: Read, W: Write>(
    input: &mut R,
    output: &mut W,
    piece: &mut [u8],
    line: &mut [u8],
    out: &mut [u8],
) -> io::Result<()> {
    let mut reading = Reading::start();
    let mut waiting = Waiting::none(out);
    for _ in 0..u64::MAX {
        match input::next_line(input, piece, line, &mut reading) {
            Ok(Next::Line(n)) => answer(output, line, n, &mut waiting)?,
            Ok(Next::TooLong) => said::answered(output, None, line, &mut waiting)?,
            Ok(Next::Nothing) => break,
            Err(e) => {
                waiting.write(output)?;
                return Err(e);
            }
        }
    }
    waiting.write(output)
}

fn main(rt: HostRuntime) -> io::Result<()> {
    run(
        &mut rt.stdin(),
        &mut rt.stdout(),
        &mut zeros::<PIECE>(),
        &mut zeros::<LINE>(),
        &mut zeros::<ANSWERS>(),
    )
}
