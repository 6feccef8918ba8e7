// The words that a program was started with, which name its files.
ghost use Rattle.std.specs.Prelude.{◌≡◌, ◌≤◌, length};

use std::env::FillError;
use std::rt::Env;

// Whether the program was started with word i. Word 0 is its own name.
pub fn has_word<R: Env>(rt: &R, i: usize) -> bool {
    !matches!(rt.arg(i, &mut [0u8; 1]), Err(FillError::NotPresent))
}

// Word i, which is put to the front of buf: all of its bytes, or none where buf has no room for them or there is
// no such word.
pub fn word<'a, R: Env>(rt: &R, i: usize, buf: &'a mut [u8]) -> &'a [u8]
    ensures place { result.ref_ptr ≡ buf.entry.ref_ptr }
    ensures within { length result.now ≤ length buf.old }
{
    let count = rt.arg(i, buf).unwrap_or(0);
    &buf[..count]
}
