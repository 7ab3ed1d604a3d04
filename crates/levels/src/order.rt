// The order of a tributary's digits: the votes that a frame acts on, what it does, and what that does to a place.
ghost use Rattle.std.specs.Prelude.{◌≡◌, not, ◌∷◌, ◌<◌, length, get_or};
ghost use Rattle.levels.specs.declared.places.Kind.TheVariants.{Justification};
ghost use Rattle.levels.specs.Order.{stuffed, has_negative, by_own, by_both, acts_by, is_stuffed, both_carry, carried};

use crate::places::{Kind, Sign};
use table::Row;

// What a frame does for a tributary: its positive place is stuffed, or only that carries a digit, or the negative place carries one too.
#[derive(Clone, Copy)]
pub enum Action {
    Stuffed,
    PositiveCarries,
    BothCarry,
}

// The note of frame f: each frame acts on its own. Both calls ask here, so that a frame index that is wrong is wrong in one place.
pub fn note_of(notes: &[u8], f: usize) -> u8
    requires { f < length notes.now }
    ensures { result ≡ get_or notes.now f 0 }
{
    notes[f]
}

// The note before that of frame f: before frame 0 the earlier vote, which may be any number.
pub fn preceding_of(earlier: u64, notes: &[u8], f: usize) -> u64
    requires { f < length notes.now }
    ensures { result ≡ get_or (earlier ∷ notes.now) f 0 }
{
    if f == 0 {
        earlier
    } else {
        u64::from(notes[f - 1])
    }
}

// Whether a note says that tributary j (from 0) is stuffed.
pub fn is_stuffed(note: u8, j: usize) -> bool
    requires { j < 4 }
    ensures { result ≡ stuffed note j }
{
    (note >> j) % 2 == 1
}

// Whether a level has negative places: it then has room for a digit more than n.
pub fn has_negative(row: Row) -> bool
    ensures { result ≡ has_negative row }
{
    row.n < row.room
}

// What a frame does by its own vote alone.
fn by_own(own: bool) -> Action
    ensures { result ≡ by_own own }
{
    if own {
        Action::Stuffed
    } else {
        Action::PositiveCarries
    }
}

// By the preceding frame's vote and its own. A choice in a choice: as a `match` on the pair it costs multiplexing a fifth of its instructions.
fn by_both(preceding: bool, own: bool) -> Action
    ensures { result ≡ by_both preceding own }
{
    if own {
        if preceding {
            Action::Stuffed
        } else {
            Action::PositiveCarries
        }
    } else if preceding {
        Action::PositiveCarries
    } else {
        Action::BothCarry
    }
}

// What a frame with this note, after one with the preceding note, does for tributary j (from 0).
pub fn action_of(row: Row, preceding: u64, note: u8, j: usize) -> Action
    requires { j < 4 }
    ensures { result ≡ acts_by row preceding note j }
{
    let own = is_stuffed(note, j);
    if has_negative(row) {
        by_both((preceding >> j) % 2 == 1, own)
    } else {
        by_own(own)
    }
}

// Whether the negative place carries, and whether the positive place does, in a frame that acts so.
fn negative_carries(act: Action) -> bool
    ensures { result ≡ both_carry act }
{
    matches!(act, Action::BothCarry)
}

fn positive_carries(act: Action) -> bool
    ensures { result ≡ not (is_stuffed act) }
{
    !matches!(act, Action::Stuffed)
}

// Whether a justification place carries a digit, in a frame that acts so.
pub fn justification_carries(sign: Sign, act: Action) -> bool
    ensures { result ≡ carried (Justification sign) act }
{
    match sign {
        Sign::Negative => negative_carries(act),
        Sign::Positive => positive_carries(act),
    }
}

// Whether a place of this kind carries a digit of tributary j (from 0), in a frame with this note and the preceding one. Only a justification
// place asks what the frame does.
pub fn carries_digit(row: Row, kind: Kind, preceding: u64, note: u8, j: usize) -> bool
    requires { j < 4 }
    ensures { result ≡ carried kind (acts_by row preceding note j) }
{
    match kind {
        Kind::Word | Kind::Service(_) | Kind::Control => false,
        Kind::Justification(sign) => justification_carries(
            sign,
            action_of(row, preceding, note, j),
        ),
        Kind::Tributary => true,
    }
}
