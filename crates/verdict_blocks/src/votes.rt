// The ways of reading a line, by its votes: they stand in an array from place 1 on, with a place before them and one behind for the votes that the line does
// not hold. Moved by a frame or not, the votes that a reading acts on are a part of it.
ghost use Rattle.std.specs.Prelude.{◌≡◌, ℕ, ◌+◌, ◌*◌, ◌/◌, ◌<◌, ◌≤◌, length};
ghost use Rattle.digits.specs.Digits.{digits_of};
ghost use Rattle.levels.specs.Sizes.{frames_of, quarter_of};
ghost use Rattle.slips.specs.Slips.{lent_from};
ghost use Rattle.judge.specs.Counting.{Voted};
ghost use Rattle.verdict_blocks.specs.Keeping.{block_at, with_four};
ghost use Rattle.verdict_blocks.specs.Readings.{majorities, own_votes, before_votes, after_votes, ran_by};
ghost use Rattle.verdict_blocks.specs.Going.{Ready, Running};

use crate::ways;
use table::Row;

// By the decision of its own frame: way 0.
pub fn feed_own(
    state: &mut [u64],
    row: Row,
    last: u64,
    votes: [u8; 66],
    line: &[u8],
    pattern: u64,
    room: &mut [u8],
    sent: &[u8],
    base: usize,
    scratch: &mut [u8],
)
    requires { (length state.old ≡ 683)
        × Running row pattern (length line.now) (frames_of row (length line.now)) (length room.old) base (length scratch.old)
        × Voted row line.now votes
        × ((j : ℕ) → j < 4 → Ready pattern (frames_of row (length line.now)) (block_at state.old (4 * 0 + j))) }
    ensures { state.new
        ≡ with_four state.old 0
        (λ (j : ℕ).
        ran_by row pattern (lent_from base (digits_of (quarter_of sent.now j))) line.now
        (own_votes last (majorities row line.now)) j (block_at state.old (4 * 0 + j))) }
{
    let end = line.len() / row.bytes + 1;
    ways::feed_way(
        state,
        0,
        row,
        last,
        &votes[1..end],
        line,
        pattern,
        room,
        sent,
        base,
        scratch,
    );
}

// By that of the frame before: way w, with these two votes before the line's.
pub fn feed_before(
    state: &mut [u64],
    w: usize,
    row: Row,
    older: u64,
    last: u64,
    votes: [u8; 66],
    line: &[u8],
    pattern: u64,
    room: &mut [u8],
    sent: &[u8],
    base: usize,
    scratch: &mut [u8],
)
    requires { (length state.old ≡ 683)
        × Running row pattern (length line.now) (frames_of row (length line.now)) (length room.old) base (length scratch.old)
        × Voted row line.now votes
        × ((j : ℕ) → j < 4 → Ready pattern (frames_of row (length line.now)) (block_at state.old (4 * w + j)))
        × (w < 4)
        × (last ≤ 15) }
    ensures { state.new
        ≡ with_four state.old w
        (λ (j : ℕ).
        ran_by row pattern (lent_from base (digits_of (quarter_of sent.now j))) line.now
        (before_votes older last (majorities row line.now)) j (block_at state.old (4 * w + j))) }
{
    let frames = line.len() / row.bytes;
    let mut moved = votes;
    moved[0] = last as u8;
    ways::feed_way(
        state,
        w,
        row,
        older,
        &moved[0..frames],
        line,
        pattern,
        room,
        sent,
        base,
        scratch,
    );
}

// By that of the frame after: way 3, with this vote behind the line's.
pub fn feed_after(
    state: &mut [u64],
    row: Row,
    next: u64,
    votes: [u8; 66],
    line: &[u8],
    pattern: u64,
    room: &mut [u8],
    sent: &[u8],
    base: usize,
    scratch: &mut [u8],
)
    requires { (length state.old ≡ 683)
        × Running row pattern (length line.now) (frames_of row (length line.now)) (length room.old) base (length scratch.old)
        × Voted row line.now votes
        × ((j : ℕ) → j < 4 → Ready pattern (frames_of row (length line.now)) (block_at state.old (4 * 3 + j)))
        × (next ≤ 15) }
    ensures { state.new
        ≡ with_four state.old 3
        (λ (j : ℕ).
        ran_by row pattern (lent_from base (digits_of (quarter_of sent.now j))) line.now
        (after_votes (majorities row line.now) next) j (block_at state.old (4 * 3 + j))) }
{
    let frames = line.len() / row.bytes;
    let mut moved = votes;
    moved[frames + 1] = next as u8;
    let end = frames + 2;
    let first = u64::from(moved[1]);
    ways::feed_way(
        state,
        3,
        row,
        first,
        &moved[2..end],
        line,
        pattern,
        room,
        sent,
        base,
        scratch,
    );
}
