// Theorems over the repair of a worn line, and no code. They stand in proofs/, the definitions that their statements cite in specs/.
#![tactic(auto)]
