// What it means that a contract leaves no choice: the definitions are in specs/. Laws of tests are in proofs/. No code.
#![tactic(auto)]
