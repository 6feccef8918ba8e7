// The words of a line, read by the letters of a request. Each word fills a slot: where its bytes begin and end in
// the arena, and its number. A line with a word that is not what its letter asks for is no request.
//
// The letters: e an element, 16 bytes; k a stored key; c a cipher's key; b bytes; x and y words of 16 and of 8 hex
// digits; n a number, r one that is a room and i one that is a frame's kind; t a route. A capital asks for the same
// before a colon, as a part of a record. Letters are bytes of the table, which a request's row is read from: an enum of them would be
// one more list of the same letters, so that a `match` over a letter stands where it is asked for something.
ghost use Rattle.std.specs.Prelude.{◌≤◌, ◌≡◌, length};
ghost use Rattle.protocol.specs.Words.{slot_at, span_of, block_of, spelled_high_first};

use crate::parts;

// Room for the slots of the longest request.
const SLOTS: usize = 9;

// The largest output buffer that a request can ask for.
const ROOM: u64 = 70000;

// What each byte of an output buffer is before a call.
const UNTOUCHED: u8 = 0xa5;

// What the words of a line say, and the size of its output buffer, where it has one.
#[derive(Clone, Copy)]
pub struct Words {
    slots: [Slot; SLOTS],
    pub(crate) room: Option<usize>,
}

// A word's bytes are arena[from..to], and its number is `number`: of a word that says a number there are no bytes, of one that says bytes
// the number is 0. No enum of the two, since a span reads where any word begins and ends; and no slice of the bytes, since it would
// lend the arena that the next word is written to.
#[derive(Clone, Copy)]
struct Slot {
    from: usize,
    to: usize,
    number: u64,
}

// That of a word which is not there.
const EMPTY: Slot = Slot {
    from: 0,
    to: 0,
    number: 0,
};

// The word behind the separator at the front of `rest`, up to the next `stop` or to the line's end, and what follows.
fn next_word(rest: &[u8], stop: u8) -> Option<(&[u8], &[u8])> {
    let (_, text) = rest.split_first()?;
    Some(parts::before(text, stop))
}

// What ends the word of a letter, where the line does not: a capital asks for a part of a record.
fn stop_of(letter: u8) -> u8 {
    if letter.is_ascii_uppercase() {
        b':'
    } else {
        b' '
    }
}

// How many bytes a word has to have, where its letter says that; a stored key has `key` of them, and a cipher's key 32, or else 16.
fn size_of(letter: u8, key: usize, text: &[u8]) -> Option<usize> {
    match letter {
        b'e' | b'E' => Some(16),
        b'k' | b'K' => Some(key),
        b'c' => Some(if text.len() == 64 { 32 } else { 16 }),
        b'x' => Some(8),
        b'y' => Some(4),
        _ => None,
    }
}

// Whether a word says as many bytes as it should: hex, or, where any number will do, `-` for none.
fn is_bytes(text: &[u8], size: Option<usize>) -> bool {
    match size {
        Some(size) => text.len() / 2 == size && digits::is_hex(text),
        None => text == b"-".as_slice() || (!text.is_empty() && digits::is_hex(text)),
    }
}

// The slot of a word that says bytes: they are put into the arena from `fill` on. `-` spells none.
fn bytes_slot(text: &[u8], size: Option<usize>, arena: &mut [u8], fill: usize) -> Option<Slot> {
    if !is_bytes(text, size) {
        return None;
    }
    let n = digits::from_hex(text, arena.get_mut(fill..)?);
    Some(Slot {
        from: fill,
        to: fill.checked_add(n)?,
        number: 0,
    })
}

// The number that a word says, not over the largest that its letter takes.
fn number_of(letter: u8, text: &[u8]) -> Option<u64> {
    let largest = match letter {
        b'r' => ROOM,
        b'i' => 255,
        _ => u64::MAX,
    };
    digits::decimal(text).filter(|n| *n <= largest)
}

// The number of a route, by which respond knows it too: its type is the library's, which no part of this crate is built on.
fn route_number(text: &[u8]) -> Option<u64> {
    match text {
        b"wide" => Some(0),
        b"narrow" => Some(1),
        b"rf" => Some(2),
        _ => None,
    }
}

// The slot of a word, as its letter asks. One that says a number takes nothing of the arena.
fn slot_of(letter: u8, key: usize, text: &[u8], arena: &mut [u8], fill: usize) -> Option<Slot> {
    let number = match letter {
        b'n' | b'r' | b'i' => number_of(letter, text)?,
        b't' => route_number(text)?,
        _ => return bytes_slot(text, size_of(letter, key, text), arena, fill),
    };
    Some(Slot {
        from: fill,
        to: fill,
        number,
    })
}

// What the words behind the first say. `rest` is the line from where that one ends.
pub(crate) fn read(letters: &[u8], key: usize, line: &[u8], arena: &mut [u8]) -> Option<Words> {
    let mut words = Words {
        slots: [EMPTY; SLOTS],
        room: None,
    };
    let mut rest = line;
    let mut fill = 0;
    for (i, letter) in letters.iter().enumerate() {
        let (text, behind) = next_word(rest, stop_of(*letter))?;
        let slot = slot_of(*letter, key, text, arena, fill)?;
        if *letter == b'r' {
            words.room = Some(slot.number as usize);
        }
        *words.slots.get_mut(i)? = slot;
        rest = behind;
        fill = slot.to;
    }
    if rest.is_empty() { Some(words) } else { None }
}

impl Words {
    // The slot of word i.
    fn slot(&self, i: usize) -> Slot
        ensures from { result.from ≡ slot_at self.now i 0 }
        ensures to { result.to ≡ slot_at self.now i 1 }
        ensures number { result.number ≡ slot_at self.now i 2 }
    {
        self.slots.get(i).copied().unwrap_or(EMPTY)
    }

    // How much of the space a call may write to: its output buffer where the request has one, made as it is before each call.
    pub fn room_in(&self, space: &mut [u8]) -> usize
        ensures { result ≤ length space.new }
    {
        match self.room {
            Some(room) if room <= space.len() => {
                space[..room].fill(UNTOUCHED);
                room
            }
            _ => space.len(),
        }
    }
}

// What a line asks for: which call of its group, with which words, and the arena that their bytes lie in.
#[derive(Clone, Copy)]
pub struct Asked<'a> {
    pub call: u8,
    pub words: Words,
    pub arena: &'a [u8],
}

impl<'a> Asked<'a> {
    // The bytes of the words from i to j: those of words that follow each other follow each other too.
    pub fn span(&self, i: usize, j: usize) -> &'a [u8]
        ensures { result.now ≡ span_of self.now.words self.now.arena.now i j }
    {
        parts::part(self.arena, self.words.slot(i).from, self.words.slot(j).to)
    }

    // The bytes of word i.
    pub fn bytes(&self, i: usize) -> &'a [u8]
        ensures { result.now ≡ span_of self.now.words self.now.arena.now i i }
    {
        self.span(i, i)
    }

    // The number of word i.
    pub fn number(&self, i: usize) -> u64
        ensures { result ≡ slot_at self.now.words i 2 }
    {
        self.words.slot(i).number
    }

    // The first 16 bytes of word i, zeros where it has fewer.
    pub fn block(&self, i: usize) -> [u8; 16]
        ensures { result ≡ block_of (span_of self.now.words self.now.arena.now i i) }
    {
        let mut b = [0u8; 16];
        octets::copy(self.bytes(i), &mut b);
        b
    }

    // The number that the digits of word i spell, the highest first: its low 64 bits.
    pub fn spelled(&self, i: usize) -> u64
        ensures { result ≡ spelled_high_first (span_of self.now.words self.now.arena.now i i) }
    {
        big_endian(self.bytes(i))
    }
}

// The number that bytes spell, the highest first: its low 64 bits. Any count of bytes, where std's from_be_bytes takes 8.
fn big_endian(s: &[u8]) -> u64
    ensures { result ≡ spelled_high_first s.now }
{
    s.iter().fold(0, |x, b| (x << 8) | u64::from(*b))
}
