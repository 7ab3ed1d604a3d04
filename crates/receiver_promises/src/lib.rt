// No code: the theorems on the receiver, over its table of modes and its contracts. They stand apart from the receiver so that a wrong
// program of it is checked quickly.
#![tactic(auto)]
