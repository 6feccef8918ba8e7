// Definitions only, from FIPS 197: they are in specs/, their examples and laws in proofs/. No code.
#![tactic(auto)]
