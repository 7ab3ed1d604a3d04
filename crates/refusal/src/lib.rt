// Why a call is refused: the refusals of the table of docs/GUIDE.md, each with its number. A call answers `Ok` or one of these; C is given
// the number, 0 for an `Ok` (specs/Refusal.antt).
#![tactic(auto)]

ghost use Rattle.std.specs.Prelude.{◌≡◌};
ghost use Rattle.refusal.specs.Refusal.{number_of};

// In the order of their numbers, 1 to 13.
#[derive(Clone, Copy, Debug, PartialEq, Eq, Hash)]
pub enum Refusal {
    // no such level
    Level,
    // a line is no whole number of frames or has over 64, or a slice has not the length that the call asks for
    Line,
    // the notes are not a byte to a frame
    Notes,
    // a buffer is no four equal quarters, or has too little room
    Buffer,
    // a note has a bit that its level has not, or the vote before the first frame is none
    NoteBits,
    // a state that no call makes
    State,
    // fewer digits than asked for
    Digits,
    // a rack has no line of this number
    RackLine,
    // no field of a capture where one should be, or a label that is too long
    Field,
    // a national digit of 0
    National,
    // signalling 0000 for one of channels 1 to 15
    Signalling,
    // no such tributary
    Tributary,
    // no such pattern
    Pattern,
}

impl From<Refusal> for u64 {
    ghost from_gives = { λ refusal number. number ≡ number_of refusal };

    fn from(refusal: Refusal) -> u64 {
        match refusal {
            Refusal::Level => 1,
            Refusal::Line => 2,
            Refusal::Notes => 3,
            Refusal::Buffer => 4,
            Refusal::NoteBits => 5,
            Refusal::State => 6,
            Refusal::Digits => 7,
            Refusal::RackLine => 8,
            Refusal::Field => 9,
            Refusal::National => 10,
            Refusal::Signalling => 11,
            Refusal::Tributary => 12,
            Refusal::Pattern => 13,
        }
    }
}
