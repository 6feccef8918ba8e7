// Sealing and opening by document 01: the limits, named once; the answers in their order and the theorems are in
// specs/ and proofs/. No code.
#![tactic(auto)]

// The longest associated data, plaintext and sealed part of a sealing, and the longest log of a program.
pub const MAX_AD: usize = 1024;

pub const MAX_PLAINTEXT: usize = 65536;

pub const MAX_SEALED: usize = 65552;

pub const MAX_LOG: usize = 16777216;
