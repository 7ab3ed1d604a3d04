// No code: how long until the receiver is aligned. Theorems over its table of modes and its contracts, apart from the others so that each crate is
// checked quickly.
#![tactic(auto)]
