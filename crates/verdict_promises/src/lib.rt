// Theorems on the verdict of a worn line, and no code: that no path costs less than the answer, that feeds in turn are one, and what a reading's cost says of the
// multiplexer that made the line. They stand in proofs/, the definitions that their statements cite in specs/.
#![tactic(auto)]
