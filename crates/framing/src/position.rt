// A position and the ranges of its fields (document 01, "Frame"), both ends included: latitude and longitude
// in 10^-7 degree, altitude in cm.
pub const LAT_MIN: i32 = -900_000_000;

pub const LAT_MAX: i32 = 900_000_000;

pub const LON_MIN: i32 = -1_800_000_000;

pub const LON_MAX: i32 = 1_800_000_000;

pub const ALT_MIN: i32 = -50_000;

pub const ALT_MAX: i32 = 1_000_000;

// Where a person was, and when: time in seconds. Any four numbers are a Position; whether document 01 lets it
// stand is asked of frame::position::is_in_range.
#[derive(Clone, Copy, Debug, PartialEq, Eq)]
pub struct Position {
    pub lat: i32,
    pub lon: i32,
    pub alt: i32,
    pub time: u32,
}
