// A receiver kept as a record, and what the calls on a rack decide without their list. A crate of its own below `rack`, so that it and the wrong programs
// that change it are checked quickly.
#![tactic(auto)]

pub mod record;
pub mod rule;
