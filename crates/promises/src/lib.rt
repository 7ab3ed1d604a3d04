// Theorems over the calls, and no code: the round trip, and demand 3. They stand in proofs/, the
// definitions that their statements cite in specs/.
#![tactic(auto)]
