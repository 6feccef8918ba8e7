// The pieces of AES-GCM-SIV, RFC 8452 section 4: a message's keys, the counter blocks with the key stream, and the
// tag. Every function takes any bytes and answers for all of them. Assumes nothing.
#![tactic(auto)]

pub mod counter;
pub mod keys;
pub mod tag;
