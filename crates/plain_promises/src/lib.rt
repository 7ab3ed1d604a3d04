// No code: the theorem that the quick engine and the plain one give the same answers, buffers and refusals on every input. It speaks of
// the two engines' contracts, so that it fails if either is weakened.
#![tactic(auto)]
