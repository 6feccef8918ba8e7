// Frames, positions and the scan for C, to which go kinds and reasons as numbers. Assumes nothing.
ghost use Rattle.std.specs.Prelude.{◌≡◌, length};
ghost use Rattle.framing.specs.Front.{front_of};
ghost use Rattle.framing.specs.Position.{position_of, position_bytes, in_range};
ghost use Rattle.framing.specs.Scan.{scan_of};
ghost use Rattle.messaging.specs.Reading.{reading_told};
ghost use Rattle.messaging.specs.Message.{values_of};
ghost use Rattle.messaging.specs.Write.{Writes};
ghost use Rattle.messaging.specs.Read.{read_of, read_out};
ghost use Rattle.khumbuseal.specs.Cells.{yes_or_no};
ghost use Rattle.khumbuseal.specs.Frames.{front_cells, message_cells};

use answer::Reason;
use framing::kind::Kind;
use framing::position::Position;
use messaging::Message;

// Writes a frame of this kind, sealed, to the front of out, and how many bytes it has.
#[unsafe(no_mangle)]
pub extern "C" fn khumbuseal_frame_write(
    kind: u8,
    key: &[u8],
    nonce: &[u8],
    plaintext: &[u8],
    out: &mut [u8],
    written: &mut usize,
) -> u8
    ensures { Writes kind key.now nonce.now plaintext.now out.old (record { answer = result; len = written.new }) out.new }
{
    let made = message::write(kind, key, nonce, plaintext, out);
    *written = made.unwrap_or(0);
    answer::number(&made)
}

// What stands at the front of s: the kind of a whole frame and its bytes, or why there is none.
#[unsafe(no_mangle)]
pub extern "C" fn khumbuseal_frame_front(s: &[u8], kind: &mut u8, taken: &mut usize) -> u8
    ensures { front_cells (front_of s.now) ≡ record { answer = result; kind = kind.new; taken = taken.new } }
{
    let front = frame::front_of(s);
    (*kind, *taken) = match front {
        Ok(whole) => (u8::from(whole.kind), whole.taken),
        Err(_) => (0, 0),
    };
    answer::number(&front)
}

// What a reading found, as a C caller's cells have it: the answer, the kind and the values, and zero where it has none.
#[derive(Clone, Copy)]
pub struct MessageCells {
    pub answer: u8,
    pub kind: u8,
    pub lat: i32,
    pub lon: i32,
    pub alt: i32,
    pub time: u32,
    pub len: usize,
    pub taken: usize,
}

impl From<Result<Message, Reason>> for MessageCells {
    ghost from_gives = { λ read cells. cells ≡ message_cells (reading_told read) };

    fn from(read: Result<Message, Reason>) -> MessageCells {
        let none = MessageCells {
            answer: answer::number(&read),
            kind: 0,
            lat: 0,
            lon: 0,
            alt: 0,
            time: 0,
            len: 0,
            taken: 0,
        };
        match read {
            Ok(Message::Position { position, taken }) => MessageCells {
                kind: u8::from(Kind::Position),
                lat: position.lat,
                lon: position.lon,
                alt: position.alt,
                time: position.time,
                taken,
                ..none
            },
            Ok(Message::Text { len, taken }) => MessageCells {
                kind: u8::from(Kind::Text),
                len,
                taken,
                ..none
            },
            Ok(Message::CheckIn { taken }) => MessageCells {
                kind: u8::from(Kind::CheckIn),
                taken,
                ..none
            },
            Err(_) => none,
        }
    }
}

// Reads the frame at the front of s: its plaintext to the front of out, and what it says to the cells.
#[unsafe(no_mangle)]
pub extern "C" fn khumbuseal_frame_read(
    key: &[u8],
    s: &[u8],
    out: &mut [u8],
    kind: &mut u8,
    len: &mut usize,
    taken: &mut usize,
    lat: &mut i32,
    lon: &mut i32,
    alt: &mut i32,
    time: &mut u32,
) -> u8
    ensures cells { values_of (read_of key.now s.now (length out.old)) ≡ record { answer = result; kind = kind.new; lat = lat.new; lon = lon.new; alt = alt.new; time = time.new; len = len.new; taken = taken.new } }
    ensures memory { out.new ≡ read_out key.now s.now out.old }
{
    let found = MessageCells::from(message::read(key, s, out));
    *kind = found.kind;
    *len = found.len;
    *taken = found.taken;
    *lat = found.lat;
    *lon = found.lon;
    *alt = found.alt;
    *time = found.time;
    found.answer
}

// The length of the longest prefix of log that is made of whole frames, how many they are, and why it stopped.
#[unsafe(no_mangle)]
pub extern "C" fn khumbuseal_scan(log: &[u8], frames: &mut u64, stop: &mut u8) -> usize
    ensures { scan_of log.now ≡ record { taken = result; frames = frames.new; stop = stop.new } }
{
    let found = frame::scan(log);
    *frames = found.frames;
    *stop = answer::number(&found.stop);
    found.prefix.len()
}

// The sixteen bytes of a position, in range or not.
#[unsafe(no_mangle)]
pub extern "C" fn khumbuseal_position_to_bytes(
    lat: i32,
    lon: i32,
    alt: i32,
    time: u32,
    bytes: &mut [u8; 16],
)
    ensures { bytes.new ≡ position_bytes (record { lat = lat; lon = lon; alt = alt; time = time }) }
{
    *bytes = frame::position::to_bytes(Position {
        lat,
        lon,
        alt,
        time,
    });
}

// The position that sixteen bytes spell, in range or not.
#[unsafe(no_mangle)]
pub extern "C" fn khumbuseal_position_from_bytes(
    bytes: &[u8; 16],
    lat: &mut i32,
    lon: &mut i32,
    alt: &mut i32,
    time: &mut u32,
)
    ensures { position_of bytes.now ≡ record { lat = lat.new; lon = lon.new; alt = alt.new; time = time.new } }
{
    let p = frame::position::from_bytes(*bytes);
    *lat = p.lat;
    *lon = p.lon;
    *alt = p.alt;
    *time = p.time;
}

// Whether a frame may hold this position: 1 or 0. Its time may be any.
#[unsafe(no_mangle)]
pub extern "C" fn khumbuseal_position_is_in_range(lat: i32, lon: i32, alt: i32) -> u8
    ensures { result ≡ yes_or_no (in_range (record { lat = lat; lon = lon; alt = alt; time = 0 })) }
{
    let position = Position {
        lat,
        lon,
        alt,
        time: 0,
    };
    u8::from(frame::position::is_in_range(position))
}
