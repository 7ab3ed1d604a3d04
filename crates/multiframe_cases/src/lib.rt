// The cases of the 2048 kbit/s multiframe and its frames, apart from the others so that each crate is checked quickly.
#![tactic(auto)]

pub mod hunt;
pub mod whole;
