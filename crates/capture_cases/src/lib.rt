// The cases of captures, apart from the others so that each crate is checked quickly.
#![tactic(auto)]

pub mod capture;
