// What a plaintext says, and whether it may stand in a frame of its kind. Assumes nothing.
ghost use Rattle.std.specs.Prelude.{◌≡◌, true, ◌+◌, length, Ok};
ghost use Rattle.answer.specs.Reasons.{answer_of};
ghost use Rattle.framing.specs.Position.{position_of};
ghost use Rattle.framing.specs.Kinds.{kind_number, is_allowed};
ghost use Rattle.messaging.specs.Message.{content_answer, message_of};
ghost use Rattle.messaging.specs.Reading.{reading_told};

use answer::Reason;
use framing::kind::Kind;
use framing::position::Position;
use messaging::Message;

// The position that sixteen bytes spell.
fn position_in(text: &[u8]) -> Position
    requires { length text.now ≡ 16 }
    ensures { result ≡ position_of text.now }
{
    frame::position::from_bytes(*text.as_array().unwrap())
}

// Whether a plaintext may stand in a frame of its kind: a position out of range may not. Writing asks it before sealing,
// reading once the tag has agreed.
pub(crate) fn check(kind: Kind, text: &[u8]) -> Result<(), Reason>
    requires { is_allowed (kind_number kind) (length text.now + 16) ≡ true }
    ensures { answer_of result ≡ content_answer (kind_number kind) text.now }
{
    if kind == Kind::Position && !frame::position::is_in_range(position_in(text)) {
        return Err(Reason::OutOfRange);
    }
    Ok(())
}

// What a plaintext says, in a frame that takes so many bytes.
pub(crate) fn message(kind: Kind, text: &[u8], taken: usize) -> Message
    requires { is_allowed (kind_number kind) (length text.now + 16) ≡ true }
    ensures { reading_told (Ok result) ≡ message_of (kind_number kind) text.now taken }
{
    match kind {
        Kind::Position => Message::Position {
            position: position_in(text),
            taken,
        },
        Kind::Text => Message::Text {
            len: text.len(),
            taken,
        },
        Kind::CheckIn => Message::CheckIn { taken },
    }
}
