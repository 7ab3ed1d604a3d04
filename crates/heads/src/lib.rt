// The head of a set of a line that goes out, column by column. specs/Columns.antt says what a column is, specs/Sending.antt what is out after so many digits.
// A crate of its own below multiplexing, so that it and the wrong programs that change it are checked quickly.
#![tactic(auto)]

ghost use Rattle.std.specs.Prelude.{◌≡◌, true, List, ℕ, ◌+◌, ◌*◌, ◌/◌, ◌<◌, ◌≤◌, length, get_or};
ghost use Rattle.levels.specs.Table.{Shared};
ghost use Rattle.levels.specs.Places.{head_end};
ghost use Rattle.levels.specs.Order.{acts_by, carried};
ghost use Rattle.levels.specs.declared.order.Action.{Action};
ghost use Rattle.levels.specs.declared.places.Kind.TheVariants.{Word};
ghost use Rattle.heads.specs.Columns.{Placed, PlacedTo, ColumnAsked, ColumnMet};
ghost use Rattle.heads.specs.Sending.{Sending};

use levels::places::{At, Kind, TributaryPlace};
use levels::{lent, order, places, sent};
use table::Row;
use words::Writer;

// One place of a head, of this kind and of tributary j (from 0): its digit. Where it carries one of its tributary, that is the next, and the index
// moves on.
fn place_digit(
    row: Row,
    kind: Kind,
    buffer: &[u8],
    next: &mut [usize; 4],
    preceding: u64,
    note: u8,
    j: usize,
    r: usize,
) -> u8
    requires { Shared row
        × (length buffer.now ≡ 4 * (length buffer.now / 4))
        × (length next.old ≡ 4)
        × (j < 4)
        × (kind ≡ Word → r < row.len)
        × (get_or next.old j 0 < 65536)
        × (carried kind (acts_by row preceding note j) ≡ true → get_or next.old j 0 < 8 * (length buffer.now / 4)) }
    ensures { Placed row note (acts_by row preceding note j) kind j r buffer.now next.old result next.new }
{
    if order::carries_digit(row, kind, preceding, note, j) {
        let q = buffer.len() / 4;
        let a = j * q;
        let e = a + q;
        let i = next[j];
        next[j] = i + 1;
        lent::tributary_digit(&buffer[a..e], TributaryPlace(i))
    } else {
        sent::idle_digit(row, kind, note, j, r)
    }
}

// The column of the first set's head from place r on, place by place: none of them carries a digit.
fn first_column(row: Row, note: u8, r: usize) -> u64
    requires { Shared row × (r + 4 ≤ row.first) }
    ensures { (acts : ℕ → Action) (buffer next : List ℕ) → PlacedTo row note acts 0 r buffer next 4 result next }
{
    let mut word: u64 = 0;
    for j in 0..4 {
        let place = r + j;
        let kind = places::kind_of(
            row,
            At {
                frame: 0,
                set: 0,
                place,
            },
        );
        word = word * 2 + sent::idle_digit(row, kind, note, j, place) as u64;
    }
    word
}

// A column of the alignment word, from place r on: four of its digits at once.
fn word_column(row: Row, r: usize) -> u64
    requires { Shared row × (r + 4 ≤ row.len) }
    ensures { (note : ℕ) (acts : ℕ → Action) (buffer next : List ℕ) → PlacedTo row note acts 0 r buffer next 4 result next }
{
    (row.word as u64 >> (row.len - (r + 4))) & 15
}

// The column of the first set's head from place r on: one of the word, or place by place.
fn start_column(row: Row, note: u8, r: usize) -> u64
    requires { Shared row × (r + 4 ≤ row.first) }
    ensures { (acts : ℕ → Action) (buffer next : List ℕ) → PlacedTo row note acts 0 r buffer next 4 result next }
{
    if r + 4 <= row.len {
        word_column(row, r)
    } else {
        first_column(row, note, r)
    }
}

// The column of a later set's head from place r on: what its first place is, the others are.
fn later_column(
    row: Row,
    buffer: &[u8],
    next: &mut [usize; 4],
    preceding: u64,
    note: u8,
    set: usize,
    r: usize,
) -> u64
    requires { (0 < set) × (r < 65536) × ColumnAsked row preceding note set r buffer.now next.old }
    ensures { ColumnMet row preceding note set r buffer.now next.old result next.new }
{
    let kind = places::kind_of(
        row,
        At {
            frame: 0,
            set,
            place: r,
        },
    );
    let mut word: u64 = 0;
    for j in 0..4 {
        word = word * 2 + place_digit(row, kind, buffer, next, preceding, note, j, r + j) as u64;
    }
    word
}

// The column of a set's head from place r on, as a number.
fn head_column(
    row: Row,
    buffer: &[u8],
    next: &mut [usize; 4],
    preceding: u64,
    note: u8,
    set: usize,
    r: usize,
) -> u64
    requires { (r < head_end row set) × ColumnAsked row preceding note set r buffer.now next.old }
    ensures { ColumnMet row preceding note set r buffer.now next.old result next.new }
{
    if set == 0 {
        start_column(row, note, r)
    } else {
        later_column(row, buffer, next, preceding, note, set, r)
    }
}

// The head of a set of frame f, column by column, put out as one number.
pub fn send_head(
    row: Row,
    earlier: u64,
    line: &mut [u8],
    notes: &[u8],
    buffer: &[u8],
    next: &mut [usize; 4],
    w: Writer,
    f: usize,
    set: usize,
) -> Writer
    requires { (f < length notes.now)
        × (set < row.sets)
        × (length buffer.now ≡ 4 * (length buffer.now / 4))
        × Sending row earlier notes.now buffer.now (f * row.digits + set * row.set) line.old w next.old }
    ensures { Sending row earlier notes.now buffer.now (f * row.digits + (set * row.set + head_end row set))
        line.new result next.new }
{
    let note = order::note_of(notes, f);
    let preceding = order::preceding_of(earlier, notes, f);
    let end = places::head_end(row, set);
    let mut word: u64 = 0;
    for r in (0..end).step_by(4) {
        word = word * 16 + head_column(row, buffer, next, preceding, note, set, r);
    }
    words::put(line, w, word, end)
}
