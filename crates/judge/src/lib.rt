// The verdict on a line: did the clock move, or the frame index? Each tributary is read by the decision of its own frame, of the frame before and of the
// frame after, and the digits read are compared with those sent, or with a test pattern. specs/Verdict.antt says what the call answers.
#![tactic(auto)]

pub mod changes;
pub mod readings;
pub mod wrong;

ghost use Rattle.std.specs.Prelude.{◌≡◌, cond, false, ◌&&◌, ℕ, ◌*◌, ◌/◌, ◌^◌, ◌<◌, ◌≤◌, eqb, length, get_or};
ghost use Rattle.refusal.specs.Refusal.{refusal_in};
ghost use Rattle.levels.specs.Table.{Shared};
ghost use Rattle.levels.specs.Sizes.{frames_of, bad_buffer, Framed};
ghost use Rattle.levels.specs.Faults.{bad_earlier};
ghost use Rattle.judge.specs.Counting.{Judgeable, Accepting, Voted};
ghost use Rattle.judge.specs.Verdict.{four, fitting, bad_pattern, number_of, judgement, accepted, judged_on, numbers_of, JudgeMet};

use levels::{faults, sizes};
use refusal::Refusal;
use table::Row;

// What is judged: for each tributary which readings fit (1 own, 2 before, 4 after, added up), the wrong digits read by its own frame, by the frame before and by
// the frame after, and in how many frames its decision differs from the frame before.
#[derive(Clone, Copy, Debug, PartialEq, Eq, Hash)]
pub struct Judgement {
    pub fits: [usize; 4],
    pub own: [usize; 4],
    pub before: [usize; 4],
    pub after: [usize; 4],
    pub changes: [usize; 4],
}

// What a reading with so many wrong digits is worth: it fits if it has none.
fn worth(wrong: usize, fits: usize) -> usize
    ensures { (result ≡ cond (eqb wrong 0) fits 0) × (result ≤ fits) }
{
    if wrong == 0 { fits } else { 0 }
}

fn fits_of(own: usize, before: usize, after: usize) -> usize
    ensures { result ≡ fitting own before after }
{
    worth(own, 1) + worth(before, 2) + worth(after, 4)
}

// Which readings fit, for each tributary.
fn fits_four(own: [usize; 4], before: [usize; 4], after: [usize; 4]) -> [usize; 4]
    ensures { result ≡ four (λ (j : ℕ). fitting (get_or own j 0) (get_or before j 0) (get_or after j 0)) }
{
    [
        fits_of(own[0], before[0], after[0]),
        fits_of(own[1], before[1], after[1]),
        fits_of(own[2], before[2], after[2]),
        fits_of(own[3], before[3], after[3]),
    ]
}

// The line's votes are read, and there is room for a reading: the readings are compared.
fn judge_by(
    row: Row,
    earlier: u64,
    line: &[u8],
    votes: [u8; 66],
    pattern: usize,
    buffer: &[u8],
    room: &mut [u8],
) -> Judgement
    requires { Accepting row line.now pattern (length buffer.now) (length room.old)
        × Voted row line.now votes
        × (bad_earlier row earlier ≡ false) }
    ensures { accepted result ≡ judgement row earlier line.now pattern buffer.now }
{
    let own = readings::own_wrong(row, earlier, line, votes, pattern, buffer, room);
    let before = readings::before_wrong(row, earlier, line, votes, pattern, buffer, room);
    let after = readings::after_wrong(row, line, votes, pattern, buffer, room);
    let fits = fits_four(own, before, after);
    let changes = readings::changes_in(row, line, votes);
    Judgement {
        fits,
        own,
        before,
        after,
        changes,
    }
}

// Room for 64 votes, and for one before and one behind them.
fn no_votes() -> [u8; 66]
    ensures { 66 ≡ length result }
{
    [0; 66]
}

// The votes of a line, from place 1 on.
pub fn read_votes(row: Row, line: &[u8]) -> [u8; 66]
    requires { Shared row × Framed row (length line.now) (frames_of row (length line.now)) }
    ensures { Voted row line.now result }
{
    let end = line.len() / row.bytes + 1;
    let mut votes = no_votes();
    reading::read_frames(row, line, &mut votes[1..end]);
    votes
}

// How many bytes a reading of so many frames needs: four quarters with the level's room.
pub fn room_of(row: Row, frames: usize) -> usize
    requires { Shared row × (frames ≤ 64) }
    ensures { (result ≤ 23680) × (result ≡ 4 * (result / 4)) × (frames * row.room ≤ 8 * (result / 4)) }
{
    4 * ((frames * row.room + 7) / 8)
}

// Room for a reading of 64 frames at any level.
pub fn empty_room() -> [u8; 23680]
    ensures { 23680 ≡ length result }
{
    [0; 23680]
}

// A line that is not refused: its votes are read, and there is room for a reading.
fn judge_frames(row: Row, earlier: u64, line: &[u8], pattern: usize, buffer: &[u8]) -> Judgement
    requires { Judgeable row earlier line.now pattern (length buffer.now) }
    ensures { accepted result ≡ judgement row earlier line.now pattern buffer.now }
{
    let votes = read_votes(row, line);
    let size = room_of(row, line.len() / row.bytes);
    let mut room = empty_room();
    judge_by(
        row,
        earlier,
        line,
        votes,
        pattern,
        buffer,
        &mut room[0..size],
    )
}

fn bad_pattern(pattern: u64) -> bool
    ensures { result ≡ bad_pattern pattern }
{
    !matches!(pattern, 0 | 15 | 23)
}

// Whether what was sent has no room in the buffer's quarters: asked with pattern 0 only.
fn bad_sent(row: Row, line: usize, pattern: u64, buffer: usize) -> bool
    requires { Shared row × (line / row.bytes ≤ 64) × (buffer < 2 ^ 63) }
    ensures { result ≡ (eqb pattern 0 && bad_buffer row line buffer) }
{
    pattern == 0 && sizes::bad_buffer(row, line, buffer)
}

// The first refusal of 13, 2, 4 and 5 that applies, by the lengths of line and buffer in bytes.
fn number_of(
    row: Row,
    earlier: u64,
    line: usize,
    pattern: u64,
    buffer: usize,
) -> Result<(), Refusal>
    requires { Shared row × (buffer < 2 ^ 63) }
    ensures { refusal_in result ≡ number_of row earlier line pattern buffer }
{
    if bad_pattern(pattern) {
        Err(Refusal::Pattern)
    } else if sizes::bad_line(row, line) {
        Err(Refusal::Line)
    } else if bad_sent(row, line, pattern, buffer) {
        Err(Refusal::Buffer)
    } else if faults::bad_earlier(row, earlier) {
        Err(Refusal::NoteBits)
    } else {
        Ok(())
    }
}

// A level's row is known: the rest is judged.
fn judge_on(
    row: Row,
    earlier: u64,
    line: &[u8],
    pattern: u64,
    buffer: &[u8],
) -> Result<Judgement, Refusal>
    requires { Shared row }
    ensures { numbers_of result ≡ judged_on row earlier line.now pattern buffer.now }
{
    number_of(row, earlier, line.len(), pattern, buffer.len())?;
    Ok(judge_frames(row, earlier, line, pattern as usize, buffer))
}

// Judges the tributaries of the line, with the vote before frame 0, against what was sent: pattern 0 is the digits in the buffer's quarters, 15 and 23 are the
// test patterns, with which the buffer is not looked at. Any level number, any vote, any pattern number, any lengths: see specs/Verdict.antt.
pub fn judge(
    level: u64,
    earlier: u64,
    line: &[u8],
    pattern: u64,
    buffer: &[u8],
) -> Result<Judgement, Refusal>
    ensures { JudgeMet level earlier line.now pattern buffer.now (numbers_of result) }
{
    match table::level_of(level) {
        Some(row) => judge_on(row, earlier, line, pattern, buffer),
        None => Err(Refusal::Level),
    }
}
