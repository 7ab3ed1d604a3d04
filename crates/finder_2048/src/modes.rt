// The table of modes: what a digit does to a state.
ghost use Rattle.std.specs.Prelude.{◌≡◌, ◌*◌, ◌^◌, ◌<◌, ◌≤◌};
ghost use Rattle.finder_2048.specs.Modes.{missed, window_of, seen_of, good, check_at, asks, passes, judged, place_then, place_after, step_of};
ghost use Rattle.finder_2048.specs.Feed.{Valid};

use crate::{Mode, State};

// How many words in a row are missed.
pub fn missed_of(mode: Mode) -> u8
    ensures { result ≡ missed mode }
{
    match mode {
        Mode::Aligned(m) => m,
        _ => 0,
    }
}

// The last seven digits with one digit more.
pub fn window_of(window: usize, d: u8) -> usize
    requires { (window < 2 ^ 7) × (d < 2) }
    ensures { result ≡ window_of window d }
{
    (window * 2 + d as usize) & 127
}

// How many digits came, one more, stopping at seven.
#[tactic(auto, unfolding(crate::specs::Modes::seen_of))]
fn seen_of(seen: usize) -> usize
    ensures { result ≡ seen_of seen }
{
    if seen < 7 { seen + 1 } else { seen }
}

// Whether the last seven digits are the word 0011011.
#[tactic(auto, unfolding(crate::specs::Modes::good))]
pub fn is_good(window: usize) -> bool
    ensures { result ≡ good window }
{
    window == 27
}

// The place at which the mode's rule looks, outside hunting: the second digit of the next frame's byte 0, or the next word's last digit.
pub fn check_at(mode: Mode) -> usize
    ensures { result ≡ check_at mode }
{
    match mode {
        Mode::Hunting => 0,
        Mode::WordFound => 250,
        Mode::SecondSeen | Mode::Aligned(_) => 512,
    }
}

// Whether the mode's rule looks at this digit.
#[tactic(auto, unfolding(crate::specs::Modes::asks))]
fn is_asked(seen: usize, mode: Mode, place: usize) -> bool
    requires { place < 512 }
    ensures { result ≡ asks seen mode place }
{
    if crate::is_hunting(mode) {
        7 <= seen
    } else {
        place + 1 == check_at(mode)
    }
}

// Whether it finds what it looks for.
fn is_passed(mode: Mode, window: usize, d: u8) -> bool
    ensures { result ≡ passes mode window d }
{
    match mode {
        Mode::WordFound => d == 1,
        Mode::Hunting | Mode::SecondSeen | Mode::Aligned(_) => is_good(window),
    }
}

// The mode once the rule looked.
fn judge(mode: Mode, passed: bool) -> Mode
    requires { missed mode ≤ 2 }
    ensures { result ≡ judged mode passed }
{
    match mode {
        Mode::Hunting if passed => Mode::WordFound,
        Mode::WordFound if passed => Mode::SecondSeen,
        Mode::SecondSeen | Mode::Aligned(_) if passed => Mode::Aligned(0),
        Mode::Aligned(m) if m < 2 => Mode::Aligned(m + 1),
        _ => Mode::Hunting,
    }
}

// The place where the rule looked.
fn place_then(mode: Mode) -> usize
    ensures { result ≡ place_then mode }
{
    match mode {
        Mode::SecondSeen => 250,
        Mode::Hunting | Mode::WordFound | Mode::Aligned(_) => 0,
    }
}

// The place where it did not.
#[tactic(auto, unfolding(crate::specs::Modes::place_after))]
fn place_after(mode: Mode, place: usize) -> usize
    requires { place < 512 }
    ensures { result ≡ place_after mode place }
{
    if crate::is_hunting(mode) {
        0
    } else {
        place + 1
    }
}

// What one digit makes of a state.
#[tactic(auto, unfolding(crate::specs::Modes::step_of, crate::specs::Modes::after_digit))]
pub fn step(s: State, d: u8) -> State
    requires { Valid s × (d < 2) }
    ensures { result ≡ step_of s d }
{
    let mode = s.mode;
    let window = window_of(s.window, d);
    let seen = seen_of(s.seen);
    if is_asked(seen, mode, s.place) {
        let judged = judge(mode, is_passed(mode, window, d));
        let place = place_then(judged);
        State {
            window,
            seen,
            mode: judged,
            place,
        }
    } else {
        State {
            window,
            seen,
            mode,
            place: place_after(mode, s.place),
        }
    }
}
