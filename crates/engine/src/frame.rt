// What stands at a place of a frame, the digits of its alignment signal, how a frame acts, whether a place of a line carries a digit of its
// tributary, and the four running indices.
ghost use Rattle.std.specs.Prelude.{◌≡◌, cond, ◌+◌, ◌/◌, ◌%◌, ◌^◌, ◌<◌, ltb, length};
ghost use Rattle.engine.specs.declared.frame.Place.TheVariants.{Fixed, Negative, Positive, Tributary};
ghost use Rattle.engine.specs.Engine.{place_in, word_digit, voted_before, stuffed_in, negative_in, carries_by, carries_at};
ghost use Rattle.engine.specs.Walk.{Regular, Counted};

use table::Row;

// A service place is one that the note has, a fixed one a service place that no note has; negative and positive places are for justification.
#[derive(Clone, Copy)]
pub enum Place {
    Alignment,
    Service,
    Fixed,
    Control,
    Negative,
    Positive,
    Tributary,
}

// What stands at place r of a set that another one follows, after its control digits.
fn between(row: Row, r: usize) -> Place
    ensures { result ≡ cond (ltb r row.middle) Fixed Tributary }
{
    if r < row.middle {
        Place::Fixed
    } else {
        Place::Tributary
    }
}

// What stands at place r of the last set, after its control digits.
fn at_last(row: Row, r: usize) -> Place
    requires { r < 4096 }
    ensures { result ≡ cond (ltb (r + 4) row.last) Negative (cond (ltb r row.last) Positive Tributary) }
{
    if r + 4 < row.last {
        Place::Negative
    } else if r < row.last {
        Place::Positive
    } else {
        Place::Tributary
    }
}

// What stands at place q of a frame, by the ranges of the table.
#[tactic(auto, unfolding(crate::specs::Engine::place_in))]
pub fn place_in(row: Row, q: usize) -> Place
    requires { Regular row × (q < row.digits) }
    ensures { result ≡ place_in row q }
{
    if q < row.len {
        Place::Alignment
    } else if q < row.len + row.alarms + row.nationals {
        Place::Service
    } else if q < row.first {
        Place::Fixed
    } else if q < row.set {
        Place::Tributary
    } else if q % row.set < 4 {
        Place::Control
    } else if q + row.set < row.digits {
        between(row, q % row.set)
    } else {
        at_last(row, q % row.set)
    }
}

// Digit q of the frame alignment signal.
pub fn word_digit(row: Row, q: usize) -> u8
    requires { Regular row × (q < row.len) }
    ensures { (result ≡ word_digit row q) × (result < 2) }
{
    ((row.word >> (row.len - 1 - q)) % 2) as u8
}

// Bit k of a note.
pub fn note_bit(note: u8, k: usize) -> u8
    requires { k < 8 }
    ensures { (result ≡ note / 2 ^ k % 2) × (result < 2) }
{
    (note >> k) % 2
}

// Whether the frame before frame f voted 1 for tributary j: before frame 0 stands the earlier vote.
fn voted_before(earlier: u64, notes: &[u8], f: usize, j: usize) -> bool
    requires { (f < length notes.now) × (j < 4) }
    ensures { result ≡ voted_before earlier notes.now f j }
{
    if f == 0 {
        (earlier >> j) % 2 == 1
    } else {
        note_bit(notes[f - 1], j) == 1
    }
}

// Both votes 1: frame f's positive place is stuffed for tributary j. Without negative places the frame's own vote decides.
fn stuffed_in(row: Row, earlier: u64, notes: &[u8], f: usize, j: usize) -> bool
    requires { (f < length notes.now) × (j < 4) }
    ensures { result ≡ stuffed_in row earlier notes.now f j }
{
    note_bit(notes[f], j) == 1 && (row.room <= row.n || voted_before(earlier, notes, f, j))
}

// Both votes 0: frame f's negative place carries a digit of tributary j too.
fn negative_in(row: Row, earlier: u64, notes: &[u8], f: usize, j: usize) -> bool
    requires { (f < length notes.now) × (j < 4) }
    ensures { result ≡ negative_in row earlier notes.now f j }
{
    row.n < row.room && note_bit(notes[f], j) != 1 && !voted_before(earlier, notes, f, j)
}

// Whether such a place carries a digit of its tributary, in a frame whose positive place is stuffed or not and whose negative place
// carries or not.
fn carries_by(place: Place, stuffed: bool, negative: bool) -> bool
    ensures { result ≡ carries_by place stuffed negative }
{
    match place {
        Place::Alignment | Place::Service | Place::Fixed | Place::Control => false,
        Place::Negative => negative,
        Place::Positive => !stuffed,
        Place::Tributary => true,
    }
}

// Whether place p of a line carries a digit: its frame acts on its own vote and on that of the frame before.
#[tactic(auto, unfolding(crate::specs::Engine::carries_at))]
pub fn carries_at(row: Row, earlier: u64, notes: &[u8], p: usize) -> bool
    requires { Regular row × (p / row.digits < length notes.now) }
    ensures { result ≡ carries_at row earlier notes.now p }
{
    let f = p / row.digits;
    let q = p % row.digits;
    let stuffed = stuffed_in(row, earlier, notes, f, q % 4);
    let negative = negative_in(row, earlier, notes, f, q % 4);
    carries_by(place_in(row, q), stuffed, negative)
}

// Place p of a line is done with: where it carries a digit, its tributary's index moves on by one.
pub fn count_place(row: Row, earlier: u64, notes: &[u8], next: &mut [usize; 4], p: usize)
    requires { Regular row × (p < 1000000) × (p / row.digits < length notes.now) × Counted row earlier notes.now p next.old }
    ensures { Counted row earlier notes.now (p + 1) next.new }
{
    if carries_at(row, earlier, notes, p) {
        let j = p % row.digits % 4;
        next[j] += 1;
    }
}
