// Requests to write, read and scan frames. A call that refuses is answered with zeros beside the reason's number.
use answer::Reason;
use messaging::Message;
use protocol::said::Said;
use protocol::words::Asked;

// The alternatives of a reading's answer, in the order of its form.
#[derive(Clone, Copy)]
enum Alternative {
    Position,
    Text,
    CheckIn,
    Refused,
}

impl From<Alternative> for usize {
    fn from(alternative: Alternative) -> usize {
        alternative as usize
    }
}

// Writing a frame: its answer and length.
fn write(asked: &Asked, room: &mut [u8]) -> Said {
    let kind = (asked.number(0) & 0xFF) as u8;
    let written = message::write(kind, asked.bytes(1), asked.bytes(2), asked.bytes(3), room);
    let answer = u64::from(answer::number(&written));
    Said::numbers(&[answer, written.unwrap_or(0) as u64])
}

// The bits of a signed number.
fn signed_bits(z: i32) -> u64 {
    u64::from(z.cast_unsigned())
}

// What a reading answered.
fn reading_said(read: Result<Message, Reason>) -> Said {
    match read {
        Ok(Message::Position { position, taken }) => Said::numbers(&[
            signed_bits(position.lat),
            signed_bits(position.lon),
            signed_bits(position.alt),
            u64::from(position.time),
            taken as u64,
        ])
        .of_kind(Alternative::Position.into()),
        Ok(Message::Text { len, taken }) => {
            Said::numbers(&[len as u64, taken as u64]).of_kind(Alternative::Text.into())
        }
        Ok(Message::CheckIn { taken }) => {
            Said::numbers(&[taken as u64]).of_kind(Alternative::CheckIn.into())
        }
        Err(reason) => Said::numbers(&[u64::from(u8::from(reason))]).of_kind(
            Alternative::Refused.into(),
        ),
    }
}

// The prefix that a scan hands back is copied into the space.
fn scan(log: &[u8], space: &mut [u8]) -> Said {
    let found = frame::scan(log);
    octets::copy(found.prefix, space);
    let stop = u64::from(answer::number(&found.stop));
    Said::numbers(&[found.frames, stop]).with_bytes(found.prefix.len())
}

// Requests on frames. What is written or read goes to the room.
pub(crate) fn answer(asked: &Asked, room: &mut [u8]) -> Said {
    match asked.call {
        b'w' => write(asked, room),
        b'r' => reading_said(message::read(asked.bytes(0), asked.bytes(1), room)),
        _ => scan(asked.bytes(0), room),
    }
}
