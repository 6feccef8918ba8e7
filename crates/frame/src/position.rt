// A position's four fields, its sixteen bytes, and whether its fields lie in their ranges. Nobody above this
// file encodes a signed field. Assumes nothing.
ghost use Rattle.std.specs.Prelude.{◌≡◌};
ghost use Rattle.framing.specs.Position.{within, in_range, position_of, position_bytes};

use framing::position::{ALT_MAX, ALT_MIN, LAT_MAX, LAT_MIN, LON_MAX, LON_MIN, Position};

// The fields that sixteen bytes spell, in range or not. This and to_bytes are public by these names (docs/DECISIONS.md), so
// that a From beside the type would be a second way.
pub fn from_bytes(b: [u8; 16]) -> Position
    ensures { result ≡ position_of b }
{
    let (words, _) = b.as_chunks();
    Position {
        lat: i32::from_le_bytes(words[0]),
        lon: i32::from_le_bytes(words[1]),
        alt: i32::from_le_bytes(words[2]),
        time: u32::from_le_bytes(words[3]),
    }
}

// The sixteen bytes that spell the fields.
pub fn to_bytes(p: Position) -> [u8; 16]
    ensures { result ≡ position_bytes p }
{
    let words = [
        p.lat.to_le_bytes(),
        p.lon.to_le_bytes(),
        p.alt.to_le_bytes(),
        p.time.to_le_bytes(),
    ];
    *words.as_flattened().as_array().unwrap()
}

// Whether z lies from least to most: asked alike of three fields, so that a proof meets one range.
fn is_within(least: i32, most: i32, z: i32) -> bool
    ensures { result ≡ within least most z }
{
    (least..=most).contains(&z)
}

// Whether latitude, longitude and altitude lie in their ranges. Time may be any.
pub fn is_in_range(p: Position) -> bool
    ensures { result ≡ in_range p }
{
    is_within(LAT_MIN, LAT_MAX, p.lat)
        && is_within(LON_MIN, LON_MAX, p.lon)
        && is_within(ALT_MIN, ALT_MAX, p.alt)
}
