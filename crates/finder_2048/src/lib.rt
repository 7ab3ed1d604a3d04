// The finder: finding the frames of a 2048 kbit/s line in a stream of digits. Two calls, `fresh` and `feed`; a state goes in by value and comes
// back by value. Each answer equals a definition of specs/Feed.antt, for any state and any piece whatever.
#![tactic(auto)]

mod hurry;
mod modes;

ghost use Rattle.std.specs.Prelude.{◌≡◌, ◌||◌, ◌+◌, ◌*◌, ◌≤◌, ltb, leb, length};
ghost use Rattle.digits.specs.Runs.{piece_of};
ghost use Rattle.finder_2048.specs.Modes.{hunting, aligned, turned};
ghost use Rattle.finder_2048.specs.Feed.{Valid, misplaced, invalid, refusal_of, refused, fed_by, run_from, FreshMet, FeedMet};

#[derive(Clone, Copy)]
pub enum Mode {
    Hunting,
    WordFound,
    SecondSeen,
    Aligned(u8),
}

pub fn is_hunting(mode: Mode) -> bool
    ensures { result ≡ hunting mode }
{
    matches!(mode, Mode::Hunting)
}

pub fn is_aligned(mode: Mode) -> bool
    ensures { result ≡ aligned mode }
{
    matches!(mode, Mode::Aligned(_)) // only the second good word aligns
}

// The last seven digits (the newest worth 1), how many digits came since reset (stopping at seven), the mode, and the place, counted from the
// word's last digit.
#[derive(Clone, Copy)]
pub struct State {
    pub window: usize,
    pub seen: usize,
    pub mode: Mode,
    pub place: usize,
}

// What a piece gives: digits taken, and whether the finder is aligned at their end.
#[derive(Clone, Copy)]
pub struct Fed {
    pub refusal: u64,
    pub taken: usize,
    pub aligned: bool,
    pub state: State,
}

// A fresh state.
pub fn fresh() -> State
    ensures { FreshMet result }
{
    State {
        window: 0,
        seen: 0,
        mode: Mode::Hunting,
        place: 0,
    }
}

// Whether a place does not go with the mode.
fn is_misplaced(mode: Mode, place: usize) -> bool
    ensures { result ≡ misplaced mode place }
{
    match mode {
        Mode::Hunting => place != 0,
        Mode::WordFound => 250 <= place,
        Mode::SecondSeen => is_outside(place),
        Mode::Aligned(_) => 512 <= place,
    }
}

// Whether a place lies before the second digit or after the digits of two frames.
fn is_outside(place: usize) -> bool
    ensures { result ≡ (ltb place 250 || leb 512 place) }
{
    place < 250 || 512 <= place
}

// Whether a state is refused with 6, item by item.
#[tactic(auto, unfolding(crate::specs::Feed::invalid))]
fn is_invalid(s: State) -> bool
    ensures { result ≡ invalid s }
{
    128 <= s.window
        || 7 < s.seen
        || 2 < modes::missed_of(s.mode)
        || is_misplaced(s.mode, s.place)
        || !is_hunting(s.mode) && s.seen < 7
}

// The refusal of a piece. The sum of first and count may be too large for a number.
#[tactic(auto, unfolding(crate::specs::Feed::refusal_of))]
fn refusal_of(s: State, bytes: usize, first: usize, count: usize) -> u64
    ensures { result ≡ refusal_of s bytes first count }
{
    if is_invalid(s) {
        6
    } else if 65536 < bytes {
        2
    } else if 8 * bytes < first || 8 * bytes - first < count {
        7
    } else {
        0
    }
}

fn refuse(refusal: u64, s: State) -> Fed
    ensures { result ≡ refused refusal s }
{
    Fed {
        refusal,
        taken: 0,
        aligned: false,
        state: s,
    }
}

fn accept(s: State, taken: usize, stopped: bool) -> Fed
    ensures { result ≡ fed_by (record { taken = taken; stopped = stopped; state = s }) }
{
    Fed {
        refusal: 0,
        taken,
        aligned: is_aligned(s.mode),
        state: s,
    }
}

// Whether alignment was found or lost between two states.
fn is_turned(before: State, after: State) -> bool
    ensures { result ≡ turned before after }
{
    is_aligned(before.mode) != is_aligned(after.mode)
}

// Takes the digits of an accepted piece, up to the one at which alignment is found or lost.
fn take_piece(s: State, piece: &[u8], first: usize, count: usize) -> Fed
    requires { Valid s × (length piece.now ≤ 65536) × (first + count ≤ 8 * length piece.now) }
    ensures { result ≡ fed_by (run_from s (piece_of piece.now first count)) }
{
    let mut c = s;
    let end = first + count;
    let mut p = first;
    // no range: a turn goes on to the digit at which hurry_on stops
    while p < end {
        let h = hurry::hurry_on(c, piece, p, end);
        p = h.at;
        let d = digits::digit_at(piece, p);
        c = modes::step(h.state, d);
        p += 1;
        if is_turned(h.state, c) {
            return accept(c, p - first, true);
        }
    }
    accept(c, p - first, false)
}

// Feeds count digits of the piece, from digit first on, and stops after the digit at which alignment is found or lost.
#[tactic(auto, unfolding(crate::specs::Feed::feed_of))]
pub fn feed(s: State, piece: &[u8], first: usize, count: usize) -> Fed
    ensures { FeedMet s piece.now first count result }
{
    let refusal = refusal_of(s, piece.len(), first, count);
    if refusal != 0 {
        return refuse(refusal, s);
    }
    take_piece(s, piece, first, count)
}
