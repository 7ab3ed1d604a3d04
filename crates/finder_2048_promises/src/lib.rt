// No code: the theorems on the finder, over its table of modes and its contracts. They stand apart from the finder so that a wrong program of
// it is checked quickly.
#![tactic(auto)]
