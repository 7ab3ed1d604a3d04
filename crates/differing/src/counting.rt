// The fifteen sums of two lines, by the layout: the head of a set is places of one kind, or columns that have a place of each tributary, and so is the run
// behind it. Crate `masks` counts each such stretch by the word. A frame that is equal in both is passed over.
ghost use Rattle.std.specs.Prelude.{◌≡◌, true, ℕ, ◌+◌, ◌*◌, ◌^◌, ◌<◌, ◌≤◌, length, get_or, replicate};
ghost use Rattle.digits.specs.Sums.{sum_to};
ghost use Rattle.levels.specs.Places.{head_end};
ghost use Rattle.differing.specs.Counting.{Lines, SumsTo, InFrame, EqualBytes};

use levels::places;
use table::Row;

// So many columns go in one turn.
const MOST: usize = 192;

// Whether the bytes from one on and before another are equal.
pub fn equal_bytes(one: &[u8], other: &[u8], from: usize, to: usize) -> bool
    requires { (from ≤ to) × (to ≤ length one.now) × (length one.now ≡ length other.now) × (to ≤ from + 4096) }
    ensures { result ≡ true → EqualBytes one.now other.now from to }
{
    &one[from..to] == &other[from..to]
}

// The head of the first set: the word, the remote alarm digit where there is one, and the other service digits.
fn count_first(row: Row, one: &[u8], other: &[u8], f: usize, sums: &mut [usize; 15])
    requires { Lines row one.now other.now
        × InFrame row one.now f
        × SumsTo row one.now other.now (f * row.digits) sums.old }
    ensures { SumsTo row one.now other.now (f * row.digits + row.first) sums.new }
{
    let p = f * row.digits;
    masks::count_kind(one, other, p, row.len, 0, sums);
    let q = p + row.len;
    masks::count_kind(one, other, q, row.alarms, 1, sums);
    let r = q + row.alarms;
    masks::count_kind(one, other, r, row.first - (row.len + row.alarms), 2, sums);
}

// The head of a later set: a control digit of each tributary, then the justification places of the last set, or service digits.
fn count_later(row: Row, one: &[u8], other: &[u8], f: usize, s: usize, sums: &mut [usize; 15])
    requires { Lines row one.now other.now
        × InFrame row one.now f
        × (0 < s)
        × (s < row.sets)
        × SumsTo row one.now other.now (f * row.digits + s * row.set) sums.old }
    ensures { SumsTo row one.now other.now (f * row.digits + s * row.set + head_end row s) sums.new }
{
    let p = f * row.digits + s * row.set;
    masks::count_column(one, other, p, 3, sums);
    if s == row.sets - 1 {
        masks::count_few(one, other, p + 4, (row.last - 4) / 4, 4, sums);
    } else {
        masks::count_kind(one, other, p + 4, row.middle - 4, 2, sums);
    }
}

// The head of set s of frame f.
fn count_head(row: Row, one: &[u8], other: &[u8], f: usize, s: usize, sums: &mut [usize; 15])
    requires { Lines row one.now other.now
        × InFrame row one.now f
        × (s < row.sets)
        × SumsTo row one.now other.now (f * row.digits + s * row.set) sums.old }
    ensures { SumsTo row one.now other.now (f * row.digits + s * row.set + head_end row s) sums.new }
{
    if s == 0 {
        count_first(row, one, other, f, sums);
    } else {
        count_later(row, one, other, f, s, sums);
    }
}

// The run behind the head: a tributary digit of each in every column. The runs of every level go in one turn; no row of the table has more than two.
fn count_run(row: Row, one: &[u8], other: &[u8], f: usize, s: usize, sums: &mut [usize; 15])
    requires { Lines row one.now other.now
        × InFrame row one.now f
        × (s < row.sets)
        × SumsTo row one.now other.now (f * row.digits + s * row.set + head_end row s) sums.old }
    ensures { SumsTo row one.now other.now (f * row.digits + s * row.set + row.set) sums.new }
{
    let head = places::head_end(row, s);
    let p = f * row.digits + s * row.set + head;
    let columns = (row.set - head) / 4;
    if columns <= MOST {
        masks::count_columns(one, other, p, columns, 5, sums);
    } else {
        masks::count_columns(one, other, p, MOST, 5, sums);
        masks::count_columns(one, other, p + 4 * MOST, columns - MOST, 5, sums);
    }
}

// Frame f, set after set.
fn count_frame(row: Row, one: &[u8], other: &[u8], f: usize, sums: &mut [usize; 15])
    requires { Lines row one.now other.now
        × InFrame row one.now f
        × SumsTo row one.now other.now (f * row.digits) sums.old }
    ensures { SumsTo row one.now other.now ((f + 1) * row.digits) sums.new }
{
    for s in 0..row.sets {
        count_head(row, one, other, f, s, sums);
        count_run(row, one, other, f, s, sums);
    }
}

// Frame f, if there is anything to count.
fn count_unequal(row: Row, one: &[u8], other: &[u8], f: usize, sums: &mut [usize; 15])
    requires { Lines row one.now other.now
        × InFrame row one.now f
        × SumsTo row one.now other.now (f * row.digits) sums.old }
    ensures { SumsTo row one.now other.now ((f + 1) * row.digits) sums.new }
{
    let from = f * row.bytes;
    if !equal_bytes(one, other, from, from + row.bytes) {
        count_frame(row, one, other, f, sums);
    }
}

// Every frame of two lines.
pub fn count_frames(row: Row, one: &[u8], other: &[u8], sums: &mut [usize; 15])
    requires { Lines row one.now other.now × (sums.old ≡ replicate 15 0) }
    ensures { SumsTo row one.now other.now (8 * length one.now) sums.new }
{
    let frames = one.len() / row.bytes;
    for f in 0..frames {
        count_unequal(row, one, other, f, sums);
    }
}

// All of the fifteen together.
pub fn total(sums: &[usize; 15]) -> usize
    requires { (k : ℕ) → get_or sums.now k 0 < 2 ^ 59 }
    ensures { result ≡ sum_to 15 (λ (k : ℕ). get_or sums.now k 0) }
{
    sums.iter().sum()
}
