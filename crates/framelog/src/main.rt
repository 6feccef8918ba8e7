// framelog KEY LOG: reads a log under a key file of 16 or 32 raw bytes, and prints a line for each frame and
// why it stopped. The log is read in pieces through a window, never whole; whether it is too long is known
// before the first line. Where a file cannot be read, the reason goes to standard error.
#![tactic(auto)]

mod length;
mod lines;
mod place;
mod walk;

use files::NamedFile;
use std::fs::File;
use std::io::Seek;
use std::rt::Files;

// Measures the log, then reads it again from its start.
fn read_log<R: Print + Eprint>(rt: &R, file: &mut NamedFile<'_, File>, key: &[u8]) {
    let Some(len) = length::measure(rt, file) else {
        return;
    };
    if let Err(why) = window::log_answer(len) {
        length::put_too_long(rt, why);
        return;
    }
    if let Err(error) = file.file.rewind() {
        files::fail(rt, file.path, error);
        return;
    }
    walk::walk(rt, file, key, len);
}

// Reads the log at path under the key at key_path, unless one of them cannot be read.
fn run<R: Files<File = File> + Print + Eprint>(rt: &R, key_path: &[u8], path: &[u8]) {
    let mut key = [0; files::KEY_ROOM];
    let Some(n) = files::fetch(rt, key_path, &mut key) else {
        return;
    };
    if let Some(mut file) = files::open(rt, path) {
        read_log(rt, &mut file, &key[..n]);
    }
}

// Takes the names of both files from the words that the program was started with. polysum's main does so too: one for both would take what
// is done with the names as a closure, and a public function of that kind needs a `requires` for it, which no public function here has.
fn main(rt: HostRuntime) {
    if !files::has_word(&rt, 2) || files::has_word(&rt, 3) {
        let _ = eprintln!(rt; "usage: framelog KEY LOG");
        return;
    }
    let mut key_room = [0; files::NAME_ROOM];
    let key_path = files::word(&rt, 1, &mut key_room);
    let mut room = [0; files::NAME_ROOM];
    let path = files::word(&rt, 2, &mut room);
    run(&rt, key_path, path);
}
