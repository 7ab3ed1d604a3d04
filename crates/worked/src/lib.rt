// Frames worked by hand, and no code: the cases in one table, and a line with all the damage that is allowed, read back. They hold by computation, in proofs/;
// what they claim stands in specs/.
#![tactic(auto)]
