// The table of modes: what a digit does to all of a receiver's state but the frame in hand and the stretch that is being cut. A crate of its own, so that it and
// the wrong programs that change it are checked quickly.
#![tactic(auto)]

ghost use Rattle.std.specs.Prelude.{◌≡◌, ◌-◌, ◌^◌, ◌<◌, ◌≤◌};
ghost use Rattle.levels.specs.Table.{Shared};
ghost use Rattle.modes.specs.Modes.{hunting, missed, window_of, seen_of, good, asks, tested_at, judged, place_after, step_of, Valid};

use table::Row;

#[derive(Clone, Copy)]
pub enum Mode {
    Hunting,
    OneFound,
    TwoFound,
    Aligned(u8),
}

pub fn is_hunting(mode: Mode) -> bool
    ensures { result ≡ hunting mode }
{
    matches!(mode, Mode::Hunting)
}

// A state without its level and its frame: what goes round in the loop.
#[derive(Clone, Copy)]
pub struct Core {
    pub window: usize,
    pub seen: usize,
    pub mode: Mode,
    pub place: usize,
}

// How many words in a row are missed.
pub fn missed_of(mode: Mode) -> u8
    ensures { result ≡ missed mode }
{
    match mode {
        Mode::Hunting | Mode::OneFound | Mode::TwoFound => 0,
        Mode::Aligned(m) => m,
    }
}

// The largest number of L digits.
pub fn mask_of(row: Row) -> usize
    requires { Shared row }
    ensures { result ≡ 2 ^ row.len - 1 }
{
    (1 << row.len) - 1
}

// The last L digits with one digit more.
fn window_of(row: Row, mask: usize, window: usize, d: u8) -> usize
    requires { Shared row × (mask ≡ 2 ^ row.len - 1) × (window < 2 ^ row.len) × (d < 2) }
    ensures { result ≡ window_of row window d }
{
    (window * 2 + d as usize) & mask
}

// How many digits came, one more, stopping at L.
fn seen_of(row: Row, seen: usize) -> usize
    ensures { result ≡ seen_of row seen }
{
    if seen < row.len { seen + 1 } else { seen }
}

// Whether the last L digits are the word.
fn is_good(row: Row, window: usize) -> bool
    ensures { result ≡ good row window }
{
    window == row.word as usize
}

// Whether the mode's rule asks for "good" at this digit.
fn asks_word(row: Row, seen: usize, mode: Mode, place: usize) -> bool
    requires { Shared row × (place < row.digits) }
    ensures { result ≡ asks row seen mode place }
{
    if is_hunting(mode) {
        row.len <= seen
    } else {
        place + 1 == row.digits
    }
}

// The mode once the word was asked for.
fn judge(mode: Mode, found: bool) -> Mode
    requires { missed mode ≤ 3 }
    ensures { result ≡ judged mode found }
{
    match (mode, found) {
        (Mode::Hunting, true) => Mode::OneFound,
        (Mode::OneFound, true) => Mode::TwoFound,
        (Mode::TwoFound | Mode::Aligned(_), true) => Mode::Aligned(0),
        (Mode::Aligned(m), false) if m + 1 != 4 => Mode::Aligned(m + 1),
        (_, false) => Mode::Hunting,
    }
}

// The place where the word was not asked for.
fn place_after(mode: Mode, place: usize) -> usize
    requires { place < 2928 }
    ensures { result ≡ place_after mode place }
{
    if is_hunting(mode) { 0 } else { place + 1 }
}

// What one digit makes of a core, and how many words it tests: one or none.
#[derive(Clone, Copy)]
pub struct Stepped {
    pub core: Core,
    pub words: usize,
}

// One digit. A word is counted where it is judged, so that no other digit costs anything for it.
pub fn step(row: Row, mask: usize, c: Core, d: u8) -> Stepped
    requires { Shared row × (mask ≡ 2 ^ row.len - 1) × Valid row c × (d < 2) }
    ensures { (result.core ≡ step_of row c d) × (result.words ≡ tested_at row c) × (result.words ≤ 1) }
{
    let mode = c.mode;
    let window = window_of(row, mask, c.window, d);
    let seen = seen_of(row, c.seen);
    if asks_word(row, seen, mode, c.place) {
        let judged = judge(mode, is_good(row, window));
        Stepped {
            core: Core {
                window,
                seen,
                mode: judged,
                place: 0,
            },
            words: 1,
        }
    } else {
        let place = place_after(mode, c.place);
        Stepped {
            core: Core {
                window,
                seen,
                mode,
                place,
            },
            words: 0,
        }
    }
}
