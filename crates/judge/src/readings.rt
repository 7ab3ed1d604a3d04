// The readings of a line: its tributaries extracted by its votes, moved by a frame or not, and the wrong digits counted. The votes stand in an array from
// place 1 on, with a place before them and one behind for the vote that the line does not hold: moved or not, they are a part of it.
ghost use Rattle.std.specs.Prelude.{◌≡◌, cond, false, ℕ, ◌*◌, ◌/◌, ◌≤◌, ◌<◌, min, length, get_or, take};
ghost use Rattle.digits.specs.Digits.{digits_of};
ghost use Rattle.levels.specs.Table.{Shared};
ghost use Rattle.levels.specs.Sizes.{frames_of, Framed, quarter_of};
ghost use Rattle.levels.specs.Order.{has_negative};
ghost use Rattle.levels.specs.Faults.{bad_earlier};
ghost use Rattle.extraction.specs.Quarters.{taken_to};
ghost use Rattle.judge.specs.Readings.{majorities, before_votes, after_votes};
ghost use Rattle.judge.specs.Wrong.{wrong_in};
ghost use Rattle.judge.specs.Verdict.{four, wrong_by, own_wrong, before_wrong, after_wrong, changes_of};
ghost use Rattle.judge.specs.Counting.{Known, Accepting, Voted};

use crate::{changes, wrong};
use levels::order;
use table::Row;

// The wrong digits of tributary j (from 0): n digits of its quarter of a reading, against its quarter of the buffer or the pattern.
fn wrong_of(pattern: usize, buffer: &[u8], read: &[u8], n: usize, j: usize) -> usize
    requires { (j < 4)
        × (n ≤ 8 * (length read.now / 4))
        × (n ≤ 65536)
        × Known pattern
        × (pattern ≡ 0 → n ≤ 8 * (length buffer.now / 4)) }
    ensures { result ≡ wrong_in pattern (digits_of (quarter_of buffer.now j)) (take n (digits_of (quarter_of read.now j))) }
{
    let q = buffer.len() / 4;
    let a = j * q;
    let r = read.len() / 4;
    let b = j * r;
    wrong::wrong_in(pattern, &buffer[a..a + q], &read[b..b + r], n)
}

// The wrong digits of the four tributaries, read by these notes and the vote before them.
fn wrong_by(
    row: Row,
    earlier: u64,
    line: &[u8],
    notes: &[u8],
    pattern: usize,
    buffer: &[u8],
    room: &mut [u8],
) -> [usize; 4]
    requires { Accepting row line.now pattern (length buffer.now) (length room.old)
        × (length notes.now ≡ frames_of row (length line.now)) }
    ensures { result
        ≡ four
        (λ (j : ℕ).
        wrong_in pattern (digits_of (quarter_of buffer.now j))
        (taken_to row earlier notes.now (digits_of line.now) j (2 * length line.now))) }
{
    let counts = extraction::extract_all(row, earlier, line, notes, room);
    [
        wrong_of(pattern, buffer, room, counts[0], 0),
        wrong_of(pattern, buffer, room, counts[1], 1),
        wrong_of(pattern, buffer, room, counts[2], 2),
        wrong_of(pattern, buffer, room, counts[3], 3),
    ]
}

// Read by the decision of its own frame.
pub fn own_wrong(
    row: Row,
    earlier: u64,
    line: &[u8],
    votes: [u8; 66],
    pattern: usize,
    buffer: &[u8],
    room: &mut [u8],
) -> [usize; 4]
    requires { Accepting row line.now pattern (length buffer.now) (length room.old) × Voted row line.now votes }
    ensures { result ≡ four (own_wrong row earlier line.now pattern buffer.now) }
{
    let end = line.len() / row.bytes + 1;
    wrong_by(row, earlier, line, &votes[1..end], pattern, buffer, room)
}

// The vote that frame 0 acts on in the reading "before".
fn vote_before(row: Row, earlier: u64, unknown: u8) -> u8
    requires { bad_earlier row earlier ≡ false }
    ensures { result ≡ cond (has_negative row) earlier unknown }
{
    if order::has_negative(row) {
        earlier as u8
    } else {
        unknown
    }
}

// Read by the decision of the frame before, with this vote for the one that the line does not hold.
fn before_by(
    row: Row,
    earlier: u64,
    line: &[u8],
    votes: [u8; 66],
    unknown: u8,
    pattern: usize,
    buffer: &[u8],
    room: &mut [u8],
) -> [usize; 4]
    requires { Accepting row line.now pattern (length buffer.now) (length room.old)
        × Voted row line.now votes
        × (bad_earlier row earlier ≡ false) }
    ensures { result
        ≡ four
        (wrong_by row line.now pattern buffer.now (before_votes row earlier (majorities row line.now) unknown)) }
{
    let frames = line.len() / row.bytes;
    let mut moved = votes;
    moved[0] = vote_before(row, earlier, unknown);
    wrong_by(
        row,
        u64::from(unknown),
        line,
        &moved[0..frames],
        pattern,
        buffer,
        room,
    )
}

// Read by the decision of the frame after.
fn after_by(
    row: Row,
    line: &[u8],
    votes: [u8; 66],
    unknown: u8,
    pattern: usize,
    buffer: &[u8],
    room: &mut [u8],
) -> [usize; 4]
    requires { Accepting row line.now pattern (length buffer.now) (length room.old) × Voted row line.now votes }
    ensures { result ≡ four (wrong_by row line.now pattern buffer.now (after_votes (majorities row line.now) unknown)) }
{
    let frames = line.len() / row.bytes;
    let mut moved = votes;
    moved[frames + 1] = unknown;
    let end = frames + 2;
    let first = u64::from(moved[1]);
    wrong_by(row, first, line, &moved[2..end], pattern, buffer, room)
}

// Of two readings the fewer wrong digits, for each tributary.
fn fewer_four(a: [usize; 4], b: [usize; 4]) -> [usize; 4]
    ensures { result ≡ four (λ (j : ℕ). min (get_or a j 0) (get_or b j 0)) }
{
    [
        a[0].min(b[0]),
        a[1].min(b[1]),
        a[2].min(b[2]),
        a[3].min(b[3]),
    ]
}

// Read by the decision of the frame before; the vote that the line does not hold is tried both ways.
pub fn before_wrong(
    row: Row,
    earlier: u64,
    line: &[u8],
    votes: [u8; 66],
    pattern: usize,
    buffer: &[u8],
    room: &mut [u8],
) -> [usize; 4]
    requires { Accepting row line.now pattern (length buffer.now) (length room.old)
        × Voted row line.now votes
        × (bad_earlier row earlier ≡ false) }
    ensures { result ≡ four (before_wrong row earlier line.now pattern buffer.now) }
{
    let none = before_by(row, earlier, line, votes, 0, pattern, buffer, room);
    let all = before_by(row, earlier, line, votes, 15, pattern, buffer, room);
    fewer_four(none, all)
}

// Read by the decision of the frame after.
pub fn after_wrong(
    row: Row,
    line: &[u8],
    votes: [u8; 66],
    pattern: usize,
    buffer: &[u8],
    room: &mut [u8],
) -> [usize; 4]
    requires { Accepting row line.now pattern (length buffer.now) (length room.old) × Voted row line.now votes }
    ensures { result ≡ four (after_wrong row line.now pattern buffer.now) }
{
    let none = after_by(row, line, votes, 0, pattern, buffer, room);
    let all = after_by(row, line, votes, 15, pattern, buffer, room);
    fewer_four(none, all)
}

// In how many frames each tributary's decision differs from the frame before.
pub fn changes_in(row: Row, line: &[u8], votes: [u8; 66]) -> [usize; 4]
    requires { Shared row
        × Framed row (length line.now) (frames_of row (length line.now))
        × Voted row line.now votes }
    ensures { result ≡ four (changes_of (majorities row line.now)) }
{
    let end = line.len() / row.bytes + 1;
    changes::changes_four(&votes[1..end])
}
