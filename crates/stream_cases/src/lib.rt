// The cases of the receiver, its alarm among them, and of the reader, apart from the others so that each crate is checked quickly.
#![tactic(auto)]

pub mod alarm;
pub mod reader;
pub mod stream;
