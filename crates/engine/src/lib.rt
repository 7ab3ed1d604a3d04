// The plain engine's specification, specs/Engine.antt, and what its three calls (crate plain) share: the frame, digits in bytes, the
// refusals. A crate of its own, so that it and the wrong programs that change it are checked quickly.
#![tactic(auto)]

pub mod frame;
pub mod packed;
pub mod refusals;

// What is counted while the notes are read: alignment digits that differ from the word and dissenting digits of each tributary, over all
// frames.
#[derive(Clone, Copy, Debug, PartialEq, Eq, Hash)]
pub struct Errors {
    pub alignment: usize,
    pub dissent: [usize; 4],
}
