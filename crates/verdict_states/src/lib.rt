// A state of the verdict on a worn line, as numbers: a fresh one, and which numbers are one. A crate of its own below `verdict`, so that each of the two is checked quickly;
// specs/States.antt says what a state is.
#![tactic(auto)]

pub mod fresh;
pub mod validity;
