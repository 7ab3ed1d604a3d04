// The receiver: finding frames in a stream of digits. Two calls, `fresh` and `feed`; a state goes in by value and comes
// back by value. Each answer equals a definition of specs/Feed.antt, for any state and any piece whatever; the whole statement
// of each call has a name there.
#![tactic(auto)]

mod carry;
mod hurry;
pub mod numbers;

ghost use Rattle.std.specs.Prelude.{◌≡◌, ◌+◌, ◌*◌, ◌-◌, ◌<◌, ◌≤◌, length};
ghost use Rattle.levels.specs.Table.{Shared};
ghost use Rattle.pieces.specs.Alarm.{Counting};
ghost use Rattle.digits.specs.Runs.{piece_of};
ghost use Rattle.receiver.specs.Feed.{core_of, state_of, invalid, refusal_of, refused};
ghost use Rattle.modes.specs.Modes.{Valid};
ghost use Rattle.receiver.specs.Feed.{accepted, run_of, feed_row, fresh_state, FreshMet, FeedMet};

use modes::{Core, Mode};
use pieces::alarm::Stretch;
use pieces::{alarm, frame};
use table::Row;

// The level, the last L digits (the newest worth 1), how many digits came since reset (stopping at L), the mode, the
// place, the frame in hand, and the stretch that is being cut.
#[derive(Clone, Copy)]
pub struct State {
    pub level: u64,
    pub window: usize,
    pub seen: usize,
    pub mode: Mode,
    pub place: usize,
    pub frame: [u8; 366],
    pub stretch: Stretch,
}

// What making a fresh state gives.
#[derive(Clone, Copy)]
pub struct Made {
    pub refusal: u64,
    pub state: State,
}

// What a piece gives: digits taken, whether a frame is ready (it is in the state), whether the alarm stands at its end, and how many
// words were tested.
#[derive(Clone, Copy)]
pub struct Fed {
    pub refusal: u64,
    pub taken: usize,
    pub ready: bool,
    pub alarm: bool,
    pub words: usize,
    pub state: State,
}

fn fresh_state(level: u64) -> State
    ensures { result ≡ fresh_state level }
{
    State {
        level,
        window: 0,
        seen: 0,
        mode: Mode::Hunting,
        place: 0,
        frame: [0u8; 366],
        stretch: Stretch {
            digits: 0,
            zeros: 0,
            few: false,
            alarm: false,
        },
    }
}

// A fresh state of a level.
pub fn fresh(level: u64) -> Made
    ensures { FreshMet level result }
{
    match table::level_of(level) {
        Some(_) => Made {
            refusal: 0,
            state: fresh_state(level),
        },
        None => Made {
            refusal: 1,
            state: fresh_state(0),
        },
    }
}

fn core_of(s: State) -> Core
    ensures { result ≡ core_of s }
{
    Core {
        window: s.window,
        seen: s.seen,
        mode: s.mode,
        place: s.place,
    }
}

// Whether a state of this row is refused with 6, item by item.
fn is_invalid(row: Row, c: Core) -> bool
    requires { Shared row }
    ensures { result ≡ invalid row c }
{
    if modes::mask_of(row) < c.window
        || row.len < c.seen
        || 3 < modes::missed_of(c.mode)
        || row.digits <= c.place
    {
        true
    } else if modes::is_hunting(c.mode) {
        c.place != 0
    } else {
        c.seen < row.len
    }
}

// The refusal of a piece, given the row of the state's level. The sum of first and count may be too large for a number.
fn refusal_of(row: Row, c: Core, st: Stretch, bytes: usize, first: usize, count: usize) -> u64
    requires { Shared row }
    ensures { result ≡ refusal_of row c st bytes first count }
{
    if is_invalid(row, c) || alarm::is_uncounted(row, st) {
        6
    } else if 65536 < bytes {
        2
    } else if 8 * bytes < first || 8 * bytes - first < count {
        7
    } else {
        0
    }
}

// What a refused piece gives.
pub fn refuse(refusal: u64, s: State) -> Fed
    ensures { result ≡ refused refusal s }
{
    Fed {
        refusal,
        taken: 0,
        ready: false,
        alarm: false, // whatever the state says
        words: 0,
        state: s,
    }
}

fn accept(
    level: u64,
    c: Core,
    f: [u8; 366],
    st: Stretch,
    taken: usize,
    words: usize,
    ready: bool,
) -> Fed
    ensures { result ≡ accepted (state_of level c f st) taken words ready }
{
    Fed {
        refusal: 0,
        taken,
        ready,
        alarm: st.alarm,
        words,
        state: State {
            level,
            window: c.window,
            seen: c.seen,
            mode: c.mode,
            place: c.place,
            frame: f,
            stretch: st,
        },
    }
}

// Takes the digits of an accepted piece, up to the one that completes a frame. The core goes round by value, the array is lent; the zeros are
// counted at the end, over the digits taken. The words that the hunt tests in its hurry are added first, then the word that the digit after it
// tests.
fn take_piece(row: Row, s: State, piece: &[u8], first: usize, count: usize) -> Fed
    requires { Shared row × Valid row (core_of s) × Counting row s.stretch × (length piece.now ≤ 65536) × (first + count ≤ 8 * length piece.now) }
    ensures { result ≡ run_of row (piece_of piece.now first count) 0 0 s }
{
    let mask = modes::mask_of(row);
    let shift = 16 - row.len;
    let mut c = core_of(s);
    let mut f = s.frame;
    let st = s.stretch;
    let mut words: usize = 0;
    let end = first + count;
    let mut p = first;
    // an iteration takes as many digits as no rule looks at, and one more
    while p < end {
        let h = hurry::hunt_on(row, mask, c, piece, p, end);
        words += h.words;
        let on = carry::carry_on(row, mask, h.core, piece, h.at, end, &mut f);
        p = on.at;
        let d = digits::digit_at(piece, p);
        let next = modes::step(row, mask, on.core, d);
        c = next.core;
        words += next.words;
        frame::keep(row, shift, c, d, &mut f);
        p += 1;
        if frame::is_ready(row, c) {
            let counted = alarm::count(row, st, piece, first, p);
            return accept(s.level, c, f, counted, p - first, words, true);
        }
    }
    let counted = alarm::count(row, st, piece, first, p); // whatever the mode
    accept(s.level, c, f, counted, p - first, words, false)
}

fn feed_row(row: Row, s: State, piece: &[u8], first: usize, count: usize) -> Fed
    requires { Shared row }
    ensures { result ≡ feed_row row s piece.now first count }
{
    let refusal = refusal_of(row, core_of(s), s.stretch, piece.len(), first, count);
    if refusal != 0 {
        refuse(refusal, s)
    } else {
        take_piece(row, s, piece, first, count)
    }
}

// Feeds count digits of the piece, from digit first on, and stops after the digit that completes a frame.
pub fn feed(s: State, piece: &[u8], first: usize, count: usize) -> Fed
    ensures { FeedMet s piece.now first count result }
{
    let level = s.level;
    match table::level_of(level) {
        Some(row) => feed_row(row, s, piece, first, count),
        None => refuse(6, s),
    }
}
