// Theorems over the swap of one tributary, and no code. They stand in proofs/, the definitions that their statements cite in specs/.
#![tactic(auto)]
