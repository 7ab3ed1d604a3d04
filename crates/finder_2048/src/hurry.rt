// Digits in a hurry: those that do no more than move the window and the place. The digit at which a rule looks and finds something, or the last
// one, is left to `step`.
ghost use Rattle.std.specs.Prelude.{◌≡◌, true, false, ◌*◌, ◌<◌, ◌≤◌, length};
ghost use Rattle.finder_2048.specs.Modes.{hunting};
ghost use Rattle.finder_2048.specs.Feed.{Valid};
ghost use Rattle.finder_2048.specs.Hurry.{still_hunting, Hurried};

use crate::{Mode, State, modes};

// The state, and the place of the next digit in the piece.
#[derive(Clone, Copy)]
pub struct Hurry {
    pub state: State,
    pub at: usize,
}

// A state that hunts after so many digits, of which all but seven are forgotten.
#[tactic(auto, unfolding(crate::specs::Hurry::still_hunting))]
fn still_hunting(window: usize, came: usize) -> State
    ensures { result ≡ still_hunting window came }
{
    State {
        window,
        seen: strides::lesser(came, 7),
        mode: Mode::Hunting,
        place: 0,
    }
}

// The hunt: takes digits while the window is not the word.
fn hunt_on(s: State, piece: &[u8], first: usize, end: usize) -> Hurry
    requires { Valid s × (hunting s.mode ≡ true) × (length piece.now ≤ 65536) × (first < end) × (end ≤ 8 * length piece.now) }
    ensures { Hurried piece.now end first s result.at result.state }
{
    let sought = strides::seek(7, 127, 27, s.window, piece, first, end);
    let at = sought.at;
    Hurry {
        state: still_hunting(sought.window, s.seen + (at - first)),
        at,
    }
}

// Outside hunting: goes to the digit before the check at once. Of the digits on the way the window keeps the last seven.
fn carry_on(s: State, piece: &[u8], first: usize, end: usize) -> Hurry
    requires { Valid s × (hunting s.mode ≡ false) × (length piece.now ≤ 65536) × (first < end) × (end ≤ 8 * length piece.now) }
    ensures { Hurried piece.now end first s result.at result.state }
{
    let mode = s.mode;
    let n = strides::lesser(modes::check_at(mode) - 1 - s.place, end - 1 - first);
    let at = first + n;
    let window = strides::window_over(7, 127, s.window, piece, first, at);
    Hurry {
        state: State {
            window,
            seen: s.seen,
            mode,
            place: s.place + n,
        },
        at,
    }
}

pub fn hurry_on(s: State, piece: &[u8], first: usize, end: usize) -> Hurry
    requires { Valid s × (length piece.now ≤ 65536) × (first < end) × (end ≤ 8 * length piece.now) }
    ensures { Hurried piece.now end first s result.at result.state }
{
    if crate::is_hunting(s.mode) {
        hunt_on(s, piece, first, end)
    } else {
        carry_on(s, piece, first, end)
    }
}
