// FIPS 197's whole blocks, appendices B, C.1 and C.3, computed from the definitions, in proofs/. Each takes seconds, and longer where a
// definition is wrong; the steps, which are quick to compute, are in fips197. No code.
#![tactic(auto)]
