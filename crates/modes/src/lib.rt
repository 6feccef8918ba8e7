// Counter mode and sealed parts, for any block cipher and any tag: the definitions are in specs/, their laws in
// proofs/. No code.
#![tactic(auto)]
