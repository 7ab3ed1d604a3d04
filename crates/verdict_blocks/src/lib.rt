// The blocks of a verdict's state: a block is how one reading of one tributary stands. It is carried over the digits of a frame and of a run of frames
// (specs/Blocks.antt), and the four of a way of reading over a line, by the votes of its own frames, of those before or of those after (specs/Readings.antt);
// and of two blocks the better one is kept. The two calls are made of these in crate `verdict`.
#![tactic(auto)]

pub mod better;
pub mod blocks;
pub mod keeping;
pub mod quiet;
pub mod rights;
pub mod standing;
pub mod votes;
pub mod ways;
