// Where two lines differ, which stand in no file: the whole of them, or a stretch of their places, as a picture draws it. specs/Lines.antt says what
// both calls answer.
ghost use Rattle.std.specs.Prelude.{◌≡◌, ◌+◌, ◌*◌, ◌<◌, ◌≤◌, length, cond, eqb, ltb};
ghost use Rattle.levels.specs.Table.{Shared};
ghost use Rattle.differing.specs.Differing.{counted_on, listed_on};
ghost use Rattle.differing.specs.Counting.{Lines};
ghost use Rattle.compare.specs.Compare.{fault_in, refused_by};
ghost use Rattle.compare.specs.Lines.{lines_refusal, stretch_refused, stretch_on, LinesMet, StretchAnswered};
ghost use Rattle.compare.specs.Summing.{Summed};

use differing::Compared;
use levels::places::FramePlace;
use levels::sizes;
use table::Row;

// What a stretch of two lines answers: the refusal, the fifteen sums of differing digits by kind and tributary, and all of them.
#[derive(Clone, Copy)]
pub struct Stretch {
    pub refusal: u64,
    pub sums: [usize; 15],
    pub all: usize,
}

// Whether the first line is whole frames, at most 64, and the second is as long.
fn fits(row: Row, one: usize, other: usize) -> bool
    requires { Shared row }
    ensures { result ≡ eqb (lines_refusal row one other) 0 }
{
    !sizes::bad_line(row, one) && other == one
}

// A level's row is known: the lines are judged and compared.
fn lines_on(row: Row, one: &[u8], other: &[u8], places: &mut [u64; 128]) -> Compared
    requires { Shared row }
    ensures { (result
        ≡ cond (eqb (lines_refusal row (length one.now) (length other.now)) 0)
        (counted_on row one.now other.now)
        (refused_by (fault_in 2 0 0)))
        × (places.new
        ≡ cond (eqb (lines_refusal row (length one.now) (length other.now)) 0)
        (listed_on row one.now other.now)
        places.old) }
{
    if fits(row, one.len(), other.len()) {
        differing::counted_on(row, one, other, places)
    } else {
        crate::refused(crate::fault_in(2, 0, 0))
    }
}

// Compares two lines of a level. Any number, any bytes: where the call is refused the list stays as it was.
pub fn compare_lines(level: u64, one: &[u8], other: &[u8], places: &mut [u64; 128]) -> Compared
    ensures { LinesMet level one.now other.now places.old result places.new }
{
    let found = table::level_of(level);
    match found {
        Some(row) => lines_on(row, one, other, places),
        None => crate::refused(crate::fault_in(1, 0, 0)),
    }
}

fn stretch_refused(refusal: u64) -> Stretch
    ensures { result ≡ stretch_refused refusal }
{
    Stretch {
        refusal,
        sums: [0; 15],
        all: 0,
    }
}

// Place p, which is in the stretch that begins at `first`: counted if the lines differ there. Answers how many differ so far.
fn sum_place(
    row: Row,
    one: &[u8],
    other: &[u8],
    first: usize,
    p: usize,
    all: usize,
    sums: &mut [usize; 15],
) -> usize
    requires { Lines row one.now other.now
        × (first ≤ p)
        × (p < 8 * length one.now)
        × Summed row one.now other.now first p all sums.old }
    ensures { Summed row one.now other.now first (p + 1) result sums.new }
{
    if levels::lent::line_digit(one, FramePlace(p))
        == levels::lent::line_digit(other, FramePlace(p))
    {
        all
    } else {
        tally::count_at(row, FramePlace(p), sums);
        all + 1
    }
}

// So many places from `first` on, one after another.
fn stretch_on(row: Row, one: &[u8], other: &[u8], first: usize, count: usize) -> Stretch
    requires { Lines row one.now other.now × (first + count ≤ 8 * length one.now) }
    ensures { result ≡ stretch_on row one.now other.now first count }
{
    let mut sums: [usize; 15] = [0; 15];
    let mut all: usize = 0;
    for p in first..first + count {
        all = sum_place(row, one, other, first, p, all, &mut sums);
    }
    Stretch {
        refusal: 0,
        sums,
        all,
    }
}

// A level's row is known: the lines are judged, and then the stretch.
fn stretch_judged(row: Row, one: &[u8], other: &[u8], first: usize, count: usize) -> Stretch
    requires { Shared row }
    ensures { result
        ≡ cond (eqb (lines_refusal row (length one.now) (length other.now)) 0)
        (cond (ltb (8 * length one.now) (first + count)) (stretch_refused 7)
        (stretch_on row one.now other.now first count))
        (stretch_refused 2) }
{
    if !fits(row, one.len(), other.len()) {
        return stretch_refused(2);
    }
    let digits = 8 * one.len();
    if digits < first || digits - first < count {
        stretch_refused(7)
    } else {
        stretch_on(row, one, other, first, count)
    }
}

// Counts what differs among `count` places from place `first` of two lines of a level on. Any numbers, any bytes.
pub fn compare_stretch(level: u64, one: &[u8], other: &[u8], first: usize, count: usize) -> Stretch
    ensures { StretchAnswered level one.now other.now first count result }
{
    let found = table::level_of(level);
    match found {
        Some(row) => stretch_judged(row, one, other, first, count),
        None => stretch_refused(1),
    }
}
