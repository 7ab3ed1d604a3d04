// Theorems on the verdict, and no code: what a reading that fits says of the multiplexer that made the line. They stand in proofs/, the definitions that
// their statements cite in specs/.
#![tactic(auto)]
