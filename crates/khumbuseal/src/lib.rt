// The C face: each public call of hashing, sealing, frames and the scan on plain numbers, byte pointers with
// lengths, and records as byte strings of a fixed size. include/khumbuseal.h declares the same functions. What
// a call returns is a number, and what it made goes to cells, since C has no other form for a Result.
// Assumes of a caller what that header asks: pointers that hold for the lengths given, and no overlap.
#![tactic(auto)]

pub mod frames;
pub mod ghashing;
pub mod hashing;
pub mod sealed;
