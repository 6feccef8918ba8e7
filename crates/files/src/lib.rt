// The files that a program is given by name. Where a call fails, the file's name and the system's reason
// go to standard error, and it answers None. What is read is the system's: no contract can speak of it, and these
// say only that a count lies within the buffer. Assumes nothing beyond what std assumes.
#![tactic(auto)]

mod words;

ghost use Rattle.std.specs.Prelude.{◌≡◌};
ghost use Rattle.std.specs.Result.{result_ok};
ghost use Rattle.files.specs.Files.{Opened, Read, got, descriptor_of};

use std::fs::File;
use std::io::Write;
use std::os::fd::AsRawFd;
use std::rt::Files;
use std::{fmt, io, str};
pub use words::{has_word, word};

// What a key file may have at most, 32 bytes, and a byte more, so that a longer one is told.
pub const KEY_ROOM: usize = 33;

// What a file's name may have at most, as the system has it: a longer one is no file's.
pub const NAME_ROOM: usize = 4096;

// A file, and the name that it was given by, under which what fails is told. A call that has no file yet takes the name alone.
#[derive(Drop)]
pub struct NamedFile<'a, F> {
    pub path: &'a [u8],
    pub file: F,
}

// The system's reason, without the number that std writes behind it.
fn reason(said: &str) -> &str {
    said.split_once(" (os error ")
        .map_or(said, |(reason, _)| reason)
}

// The part of some text that was written to the front of zeros.
fn written(text: &[u8]) -> &str {
    str::from_utf8(text).unwrap_or("").trim_end_matches('\0')
}

// A file's name as it is shown: bytes that are not UTF-8 as the character for that.
#[derive(Drop)]
struct Shown<'a>(&'a [u8]);

impl fmt::Display for Shown<'_> {
    fn fmt<W: fmt::Write>(&self, f: &mut fmt::Formatter<W>) -> fmt::Result {
        for part in self.0.utf8_chunks() {
            f.write_str(part.valid())?;
            if !part.invalid().is_empty() {
                f.write_char(char::REPLACEMENT_CHARACTER)?;
            }
        }
        Ok(())
    }
}

// Says on standard error what failed, as the caller names it, and why.
pub fn fail<R: Eprint>(rt: &R, path: &[u8], error: io::Error) {
    let mut text = io::Cursor::new([0u8; 256]);
    let _ = write!(text, "{error}");
    let why = reason(written(text.get_ref()));
    let _ = eprintln!(rt; "{}: {why}", Shown(path));
}

// The file at path, opened for reading. std opens no name that is not UTF-8.
fn open_named<R: Files<File = File>>(rt: &R, path: &[u8]) -> io::Result<File> {
    let name = str::from_utf8(path).map_err(|_| io::Error::from(io::ErrorKind::InvalidFilename))?;
    File::open(rt, name)
}

// What came of a call on the file at path; nothing where it failed, which is told.
fn told<T, R: Eprint>(rt: &R, path: &[u8], came: io::Result<T>) -> Option<T>
    ensures { result ≡ result_ok came }
{
    match came {
        Ok(x) => Some(x),
        Err(error) => {
            fail(rt, path, error);
            None
        }
    }
}

// The descriptor of what was opened, or -1 where nothing was. A number and no Option: its promise, and the refused programs, speak
// of -1 as the one negative answer (docs/EXCEPTIONS.md).
pub fn descriptor(opened: &Option<NamedFile<'_, File>>) -> i32
    ensures { result ≡ descriptor_of opened.now }
{
    match opened {
        Some(named) => named.file.as_raw_fd(),
        None => -1,
    }
}

// The file at path, opened for reading, unless that fails.
pub fn open<'a, R: Files<File = File> + Eprint>(
    rt: &R,
    path: &'a [u8],
) -> Option<NamedFile<'a, File>>
    ensures { Opened (descriptor_of result) }
{
    let file = told(rt, path, open_named(rt, path))?;
    let opened = Some(NamedFile { path, file });
    if descriptor(&opened) < 0 {
        return None;
    }
    opened
}

impl<F: io::Read> NamedFile<'_, F> {
    // One read to the front of buf, of any count that the system chooses: 0 where the file is at its end.
    pub fn read<R: Eprint>(&mut self, rt: &R, buf: &mut [u8]) -> Option<usize>
        ensures { Read (got result) buf.new }
    {
        let came = self.file.read(buf);
        told(rt, self.path, came)
    }

    // Reads until buf is full or the file ends. std's calls that read so far read to a heap, or need all that buf has room for.
    fn fill<R: Eprint>(&mut self, rt: &R, buf: &mut [u8]) -> Option<usize>
        ensures { Read (got result) buf.new }
    {
        let mut n = 0;
        while n < buf.len() {
            let more = self.read(rt, &mut buf[n..])?;
            if more == 0 {
                break;
            }
            n += more;
        }
        Some(n)
    }
}

// The first bytes of the file at path, as many as buf has room for.
pub fn fetch<R: Files<File = File> + Eprint>(rt: &R, path: &[u8], buf: &mut [u8]) -> Option<usize>
    ensures { Read (got result) buf.new }
{
    open(rt, path)?.fill(rt, buf)
}
