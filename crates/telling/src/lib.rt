// What the programs of cases share: how inputs are made, and how lists of numbers are written out.
#![tactic(auto)]

pub mod inputs;
pub mod say;
