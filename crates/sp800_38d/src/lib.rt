// NIST SP 800-38D: GHASH. The definitions are in specs/, their laws in proofs/. No code.
#![tactic(auto)]
