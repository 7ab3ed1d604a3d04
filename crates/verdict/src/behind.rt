// The reading by the frame after where the vote behind the line's may not be known: it is tried both ways, from the same state, and the better one is kept.
ghost use Rattle.std.specs.Prelude.{◌≡◌, ℕ, ◌+◌, ◌*◌, ◌<◌, ◌≤◌, length};
ghost use Rattle.digits.specs.Digits.{digits_of};
ghost use Rattle.levels.specs.Sizes.{frames_of, quarter_of};
ghost use Rattle.slips.specs.Slips.{lent_from};
ghost use Rattle.judge.specs.Counting.{Voted};
ghost use Rattle.verdict_blocks.specs.Keeping.{block_at, with_four};
ghost use Rattle.verdict_blocks.specs.Readings.{majorities, after_votes, ran_by, ran_after};
ghost use Rattle.verdict_blocks.specs.Blocks.{better_of};
ghost use Rattle.verdict_blocks.specs.Going.{Ready, Running};

use table::Row;
use verdict_blocks::{better, votes};

// By the decision of the frame after, where the vote behind the line's is not known: no tributary stuffed and all four, and the better way is kept.
fn feed_both(
    state: &mut [u64],
    row: Row,
    votes: [u8; 66],
    line: &[u8],
    pattern: u64,
    room: &mut [u8],
    sent: &[u8],
    base: usize,
    scratch: &mut [u8],
)
    requires { (length state.old ≡ 683)
        × Running row pattern (length line.now) (frames_of row (length line.now)) (length room.old) base (length scratch.old)
        × Voted row line.now votes
        × ((j : ℕ) → j < 4 → Ready pattern (frames_of row (length line.now)) (block_at state.old (4 * 3 + j))) }
    ensures { state.new
        ≡ with_four state.old 3
        (λ (j : ℕ).
        better_of
        (ran_by row pattern (lent_from base (digits_of (quarter_of sent.now j))) line.now
        (after_votes (majorities row line.now) 0) j (block_at state.old (4 * 3 + j)))
        (ran_by row pattern (lent_from base (digits_of (quarter_of sent.now j))) line.now
        (after_votes (majorities row line.now) 15) j (block_at state.old (4 * 3 + j)))) }
{
    let mut other = better::copy_of(state);
    votes::feed_after(
        state, row, 0, votes, line, pattern, room, sent, base, scratch,
    );
    votes::feed_after(
        &mut other[0..683],
        row,
        15,
        votes,
        line,
        pattern,
        room,
        sent,
        base,
        scratch,
    );
    better::keep_last(state, &other[0..683]);
}

// The same, whether that vote is known or 16.
pub fn feed_next(
    state: &mut [u64],
    row: Row,
    next: u64,
    votes: [u8; 66],
    line: &[u8],
    pattern: u64,
    room: &mut [u8],
    sent: &[u8],
    base: usize,
    scratch: &mut [u8],
)
    requires { (length state.old ≡ 683)
        × Running row pattern (length line.now) (frames_of row (length line.now)) (length room.old) base (length scratch.old)
        × Voted row line.now votes
        × ((j : ℕ) → j < 4 → Ready pattern (frames_of row (length line.now)) (block_at state.old (4 * 3 + j)))
        × (next ≤ 16) }
    ensures { state.new
        ≡ with_four state.old 3
        (λ (j : ℕ).
        ran_after row pattern (lent_from base (digits_of (quarter_of sent.now j))) line.now (majorities row line.now) next j
        (block_at state.old (4 * 3 + j))) }
{
    if next == 16 {
        feed_both(state, row, votes, line, pattern, room, sent, base, scratch);
    } else {
        votes::feed_after(
            state, row, next, votes, line, pattern, room, sent, base, scratch,
        );
    }
}
