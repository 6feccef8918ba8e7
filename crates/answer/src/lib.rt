// The answers of document 01: 0 for a call that did what it was asked, and the number of the reason of one that refused.
// specs/ has the same numbers for the contracts. Assumes nothing.
#![tactic(auto)]

ghost use Rattle.std.specs.Prelude.{◌≡◌};
ghost use Rattle.answer.specs.Reasons.{number_of, answer_of};

// Why a call refused.
#[derive(Clone, Copy, Debug, PartialEq, Eq)]
pub enum Reason {
    // Hash key not 16 bytes, or sealing key not 16 or 32.
    KeyLength = 1,
    // Nonce not 12 bytes.
    NonceLength = 2,
    // Whole-block feed: length not a multiple of 16.
    NotWholeBlocks = 3,
    // Associated data over MAX_AD bytes.
    AdTooLong = 4,
    // Plaintext over MAX_PLAINTEXT, or sealed part over MAX_SEALED.
    TextTooLong = 5,
    // Sealed part under 16 bytes: no room for a tag.
    SealedTooShort = 6,
    // Output too small.
    NoRoom = 7,
    // The tag differs.
    TagDiffers = 8,
    // The frame's first byte is not 0x4B.
    NotAFrame = 9,
    // Unknown kind of frame.
    UnknownKind = 10,
    // Length not allowed for the kind.
    LengthForKind = 11,
    // The frame is cut short.
    CutShort = 12,
    // Position out of range.
    OutOfRange = 13,
    // The hash record claims more than 15 pending bytes, or has pending bytes where none may be, or two
    // records have unlike keys.
    BadRecord = 14,
    // A program's log is over MAX_LOG bytes.
    LogTooLong = 15,
}

impl From<Reason> for u8 {
    ghost from_gives = { λ reason n. n ≡ number_of reason };

    fn from(reason: Reason) -> u8 {
        reason as u8
    }
}

// The number that document 01 has for what a call returned: 0 where it did what it was asked.
pub fn number<T>(returned: &Result<T, Reason>) -> u8
    ensures { result ≡ answer_of returned.now }
{
    match returned {
        Ok(_) => 0,
        Err(reason) => u8::from(*reason),
    }
}
