// RFC 8452 section 8's worked example, and a vector of appendix C.2, computed from the definitions, in proofs/. They take AES and a minute; what
// is quick to compute is in rfc8452. No code.
#![tactic(auto)]
