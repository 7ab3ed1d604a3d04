// A receiver's state, and the answer of a piece, as numbers: so the C face hands them on, and so a rack keeps them. specs/Numbers.antt says which
// number stands for what.
ghost use Rattle.std.specs.Prelude.{◌≡◌, ◌+◌, ◌<◌};
ghost use Rattle.receiver.specs.Numbers.{mode_number, mode_of, state_from, state_numbers, fed_by, fed_answer};

use crate::{Fed, State};
use modes::Mode;
use pieces::alarm::Stretch;

pub fn mode_number(mode: Mode) -> u64
    ensures { result ≡ mode_number mode }
{
    match mode {
        Mode::Hunting => 0,
        Mode::OneFound => 1,
        Mode::TwoFound => 2,
        Mode::Aligned(m) => 3 + m as u64,
    }
}

pub fn mode_of(n: u64) -> Mode
    ensures { result ≡ mode_of n }
{
    match n {
        0 => Mode::Hunting,
        1 => Mode::OneFound,
        2 => Mode::TwoFound,
        3..=6 => Mode::Aligned((n - 3) as u8),
        _ => Mode::Aligned(4),
    }
}

// The numbers of a state, without its frame.
pub fn state_numbers(s: State) -> [u64; 9]
    ensures { result ≡ state_numbers s }
{
    let st = s.stretch;
    [
        s.level,
        s.window as u64,
        s.seen as u64,
        mode_number(s.mode),
        s.place as u64,
        st.digits as u64,
        st.zeros as u64,
        digits::as_number(st.few),
        digits::as_number(st.alarm),
    ]
}

// The state of these numbers, with the frame in hand.
pub fn state_from(numbers: [u64; 9], frame: [u8; 366]) -> State
    ensures { result ≡ state_from numbers frame }
{
    State {
        level: numbers[0],
        window: numbers[1] as usize,
        seen: numbers[2] as usize,
        mode: mode_of(numbers[3]),
        place: numbers[4] as usize,
        frame,
        stretch: Stretch {
            digits: numbers[5] as usize,
            zeros: numbers[6] as usize,
            few: numbers[7] != 0,
            alarm: numbers[8] != 0,
        },
    }
}

// Feeds a piece to a state of whose numbers two stand for yes or no: another number than 0 and 1 is refused with 6.
pub fn fed_by(s: State, few: u64, alarm: u64, piece: &[u8], first: usize, count: usize) -> Fed
    ensures { result ≡ fed_by s few alarm piece.now first count }
{
    if 1 < few || 1 < alarm {
        crate::refuse(6, s)
    } else {
        crate::feed(s, piece, first, count)
    }
}

// The answer of a piece as numbers: digits taken, 1 if a frame is ready, 1 if the alarm stands at the end, words tested.
pub fn fed_numbers(f: Fed) -> [u64; 4]
    ensures { result ≡ fed_answer f }
{
    [
        f.taken as u64,
        digits::as_number(f.ready),
        digits::as_number(f.alarm),
        f.words as u64,
    ]
}
