// What the code of every mode of sealing shares: AES under a key of either length, and the refusals that lengths
// decide. Assumes nothing.
#![tactic(auto)]

pub mod cipher;
pub mod lengths;
