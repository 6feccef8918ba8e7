// POLYVAL over a message in parts: calls on the hash record, which holds the key, the element and the bytes that wait
// for the rest of their block (lib.rs, soft.rs). Every call answers for every record, altered ones too.
#![tactic(auto)]

pub mod feeds;
pub mod finishing;
pub mod records;
pub mod starting;

pub use feeds::{feed_blocks, feed_padded, feed_piece};
pub use finishing::finish;
pub use records::zero;
pub use starting::{reset, start};
