// RFC 8452: POLYVAL and AES-GCM-SIV. The definitions are in specs/, their laws in proofs/. No code.
#![tactic(auto)]
