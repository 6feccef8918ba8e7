// The kinds of frame (document 01, "Frame", the table). A new kind is a case with its number and a row of the table
// here, and a row in specs/Kinds.antt; what is computed from the table follows. Assumes nothing.
ghost use Rattle.std.specs.Prelude.{◌≡◌, option_map};
ghost use Rattle.framing.specs.Kinds.{kind_number, row_told, row_of, KindFor};

use answer::Reason;

// A kind, by its number.
#[derive(Clone, Copy, Debug, PartialEq, Eq)]
pub enum Kind {
    Position = 1,
    Text = 2,
    CheckIn = 3,
}

// A kind, its least and its greatest plaintext, and the step from one length to the next.
#[derive(Clone, Copy, Debug, PartialEq, Eq)]
pub struct Row {
    pub kind: Kind,
    pub least: usize,
    pub most: usize,
    pub step: usize,
}

pub const TABLE: [Row; 3] = [
    Row {
        kind: Kind::Position,
        least: 16,
        most: 16,
        step: 16,
    },
    Row {
        kind: Kind::Text,
        least: 1,
        most: 160,
        step: 1,
    },
    Row {
        kind: Kind::CheckIn,
        least: 0,
        most: 0,
        step: 1,
    },
];

// The longest plaintext of a frame of any kind: the table's greatest.
pub const MAX_PLAINTEXT: usize = 160;

// No frame is longer: 32 bytes more than its plaintext. A reader of a log that can hold this many bytes has
// room whenever it needs more.
pub const LONGEST_FRAME: usize = 32 + MAX_PLAINTEXT;

impl From<Kind> for u8 {
    ghost from_gives = { λ kind n. n ≡ kind_number kind };

    fn from(kind: Kind) -> u8 {
        kind as u8
    }
}

// What the table has for a number.
pub fn row_of(number: u8) -> Option<Row>
    ensures { option_map row_told result ≡ row_of number }
{
    TABLE
        .iter()
        .find(|row| u8::from(row.kind) == number)
        .copied()
}

impl TryFrom<u8> for Kind {
    type Error = Reason;

    ghost try_from_gives = { KindFor };

    fn try_from(number: u8) -> Result<Kind, Reason> {
        let row = row_of(number).ok_or(Reason::UnknownKind)?;
        Ok(row.kind)
    }
}
