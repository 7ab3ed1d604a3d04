// The first 64 differing digits of two lines, with their frames and places. Blocks of bytes that are equal are passed over at once, and single bytes that are
// equal; only a differing byte is looked at digit by digit, and nothing once the list is full.
ghost use Rattle.std.specs.Prelude.{◌≡◌, ◌+◌, ◌*◌, ◌<◌, ◌≤◌, length, replicate};
ghost use Rattle.levels.specs.Table.{Shared};
ghost use Rattle.differing.specs.Differing.{listed_on};
ghost use Rattle.differing.specs.Counting.{Lines, Listed, put_place};

use crate::counting;
use levels::lent;
use levels::places::FramePlace;
use table::Row;

// So many bytes are held against each other at once.
const BLOCK: usize = 64;

// Lists the frame and the place of a differing digit behind so many others, where there is room.
fn list_place(row: Row, p: FramePlace, before: usize, places: &mut [u64; 128])
    requires { Shared row }
    ensures { places.new ≡ put_place row p.0 before places.old }
{
    if before < crate::LISTED_MOST {
        places[2 * before] = (p.0 / row.digits) as u64;
        places[2 * before + 1] = (p.0 % row.digits) as u64;
    }
}

// Place p: listed if the lines differ there. Answers how many differ so far.
fn list_digit(
    row: Row,
    one: &[u8],
    other: &[u8],
    p: usize,
    all: usize,
    places: &mut [u64; 128],
) -> usize
    requires { Lines row one.now other.now
        × (p < 8 * length one.now)
        × Listed row one.now other.now p all places.old }
    ensures { Listed row one.now other.now (p + 1) result places.new }
{
    if lent::line_digit(one, FramePlace(p)) == lent::line_digit(other, FramePlace(p)) {
        all
    } else {
        list_place(row, FramePlace(p), all, places);
        all + 1
    }
}

// Byte i: passed over if the lines have the same there.
fn list_byte(
    row: Row,
    one: &[u8],
    other: &[u8],
    i: usize,
    before: usize,
    places: &mut [u64; 128],
) -> usize
    requires { Lines row one.now other.now
        × (i < length one.now)
        × Listed row one.now other.now (8 * i) before places.old }
    ensures { Listed row one.now other.now (8 * (i + 1)) result places.new }
{
    if one[i] == other[i] {
        return before;
    }
    let mut all = before;
    for p in 8 * i..8 * (i + 1) {
        all = list_digit(row, one, other, p, all, places);
    }
    all
}

// The bytes from one on and before another: passed over if they are all equal, or as soon as the list is full.
fn list_block(
    row: Row,
    one: &[u8],
    other: &[u8],
    from: usize,
    to: usize,
    before: usize,
    places: &mut [u64; 128],
) -> usize
    requires { Lines row one.now other.now
        × (from ≤ to)
        × (to ≤ length one.now)
        × (to ≤ from + 64)
        × Listed row one.now other.now (8 * from) before places.old }
    ensures { Listed row one.now other.now (8 * to) result places.new }
{
    if counting::equal_bytes(one, other, from, to) {
        return before;
    }
    let mut all = before;
    for i in from..to {
        if crate::LISTED_MOST <= all {
            return all;
        }
        all = list_byte(row, one, other, i, all, places);
    }
    all
}

// Two lines of one length, block by block.
pub fn list_lines(row: Row, one: &[u8], other: &[u8], places: &mut [u64; 128])
    requires { Lines row one.now other.now × (places.old ≡ replicate 128 0) }
    ensures { places.new ≡ listed_on row one.now other.now }
{
    let end = one.len();
    let mut all: usize = 0;
    for from in (0..end).step_by(BLOCK) {
        if crate::LISTED_MOST <= all {
            return;
        }
        let to = end.min(from + BLOCK);
        all = list_block(row, one, other, from, to, all, places);
    }
}
