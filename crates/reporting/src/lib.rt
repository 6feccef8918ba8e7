// The lines of a log's report, as people read them: the definitions are in specs/; in proofs/ their laws, and that
// nothing a frame holds can act on a terminal or be taken for an escape. No code.
#![tactic(auto)]
