// Writing and reading a frame by document 01, "Frame". Here stands the type of a message; the definitions are
// in specs/, the theorems about them in proofs/. No code: the crate message computes them.
#![tactic(auto)]

use framing::position::Position;

// What a reading found: a position, a text with its length, or a check-in, each with the bytes that the frame
// took. The plaintext of every kind is in the output that the caller lent.
#[derive(Clone, Copy, Debug, PartialEq, Eq)]
pub enum Message {
    Position { position: Position, taken: usize },
    Text { len: usize, taken: usize },
    CheckIn { taken: usize },
}
