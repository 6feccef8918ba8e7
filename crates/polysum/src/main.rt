// polysum KEY FILE: hashes a file in pieces under a key file of 16 raw bytes, and prints the tag in hex.
// Where a call refuses, it prints the answer; where a file cannot be read, the reason goes to standard
// error and nothing to standard output.
#![tactic(auto)]

use answer::Reason;
use feeding::{Hash, Route};
use files::NamedFile;
use std::fs::File;
use std::rt::Files;

// How many bytes of a file are hashed at a time.
const PIECE: usize = 65536;

// Why there is no tag: a file could not be read, which was told, or a call refused.
#[derive(Clone, Copy)]
enum NoTag {
    Unread,
    Refused(Reason),
}

impl From<Reason> for NoTag {
    fn from(reason: Reason) -> NoTag {
        NoTag::Refused(reason)
    }
}

// One read, and what it read is fed; nothing at the end of the file.
fn feed_some<R: Eprint>(
    rt: &R,
    file: &mut NamedFile<'_, File>,
    hash: Hash,
) -> Result<Option<Hash>, NoTag> {
    let mut buf = [0u8; PIECE];
    let n = file.read(rt, &mut buf).ok_or(NoTag::Unread)?;
    if n == 0 {
        return Ok(None);
    }
    let fed = hash::feed_piece(hash, Route::Wide, &buf[..n])?;
    Ok(Some(fed.hash))
}

// All of a file. A proved loop has to end, and nothing says that a file does: the turns are counted to a number
// that no run comes to.
fn feed_all<R: Eprint>(rt: &R, file: &mut NamedFile<'_, File>, start: Hash) -> Result<Hash, NoTag> {
    let mut hash = start;
    for _ in 0..u64::MAX {
        let Some(next) = feed_some(rt, file, hash)? else {
            break;
        };
        hash = next;
    }
    Ok(hash)
}

// The tag of the file at path under the key at key_path.
fn tag_of<R: Files<File = File> + Eprint>(
    rt: &R,
    key_path: &[u8],
    path: &[u8],
) -> Result<[u8; 16], NoTag> {
    let mut key = [0u8; files::KEY_ROOM];
    let n = files::fetch(rt, key_path, &mut key).ok_or(NoTag::Unread)?;
    let started = hash::start(&key[..n])?;
    let mut file = files::open(rt, path).ok_or(NoTag::Unread)?;
    let hash = feed_all(rt, &mut file, started.hash)?;
    Ok(hash::finish(hash, Route::Wide)?.tag)
}

// Prints the line of a tag, in hex.
fn put_tag<R: Print>(rt: &R, tag: [u8; 16]) {
    for b in tag {
        let _ = print!(rt; "{b:02x}");
    }
    let _ = println!(rt);
}

// Prints the line of a call that refused: its answer, and what it means.
fn put_refusal<R: Print>(rt: &R, reason: Reason) {
    let meaning = match reason {
        Reason::KeyLength => ": the key is not 16 bytes long",
        _ => "",
    };
    let _ = println!(rt; "refused {}{meaning}", u8::from(reason));
}

// Takes the names of both files from the words that the program was started with. framelog's main does so too: one for both would take what
// is done with the names as a closure, and a public function of that kind needs a `requires` for it, which no public function here has.
fn main(rt: HostRuntime) {
    if !files::has_word(&rt, 2) || files::has_word(&rt, 3) {
        let _ = eprintln!(rt; "usage: polysum KEY FILE");
        return;
    }
    let mut key_room = [0u8; files::NAME_ROOM];
    let key_path = files::word(&rt, 1, &mut key_room);
    let mut room = [0u8; files::NAME_ROOM];
    let path = files::word(&rt, 2, &mut room);
    match tag_of(&rt, key_path, path) {
        Ok(tag) => put_tag(&rt, tag),
        Err(NoTag::Refused(reason)) => put_refusal(&rt, reason),
        Err(NoTag::Unread) => {}
    }
}
