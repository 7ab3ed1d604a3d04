// The verdict on a worn line: each tributary is read by the decision of its own frame, of the frame before and of the frame after, and each reading is
// explained as cheaply as possible by wrong digits and slips. specs/Feed.antt says what feeding answers and leaves; what a state
// is, and a fresh one, stand in crate `verdict_states`, and its blocks are carried on by crate `verdict_blocks`.
#![tactic(auto)]

pub mod answer;
pub mod behind;
pub mod feeding;
pub mod refusals;
