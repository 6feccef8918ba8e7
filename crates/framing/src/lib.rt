// Frames by document 01, "Frame", as far as no key is needed: the kinds, the positions, what stands at the
// front of a byte string and the scan of a log. Here stand the types, the numbers and the search of the table of kinds;
// the definitions are in specs/, the theorems about them in proofs/. The crate frame computes the rest.
#![tactic(auto)]

pub mod kind;
pub mod position;

use kind::Kind;

// Byte 0 of a frame.
pub const MARK: u8 = 0x4B;

// A whole frame at the front of a byte string: its kind, and the bytes that it takes.
#[derive(Clone, Copy, Debug, PartialEq, Eq)]
pub struct Extent {
    pub kind: Kind,
    pub taken: usize,
}
