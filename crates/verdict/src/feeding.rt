// The next frames of a recording fed to a state (specs/Feed.antt): the ways of reading one after the other, then what stands before the blocks; and the answer.
ghost use Rattle.std.specs.Prelude.{◌≡◌, ℕ, ◌+◌, ◌/◌, ◌%◌, ◌<◌, ◌≤◌, min, length, get_or, replicate};
ghost use Rattle.digits.specs.Digits.{digits_of};
ghost use Rattle.levels.specs.Sizes.{frames_of, quarter_of};
ghost use Rattle.refusal.specs.Refusal.{refusal_in};
ghost use Rattle.slips.specs.Slips.{lent_from};
ghost use Rattle.judge.specs.Counting.{Voted};
ghost use Rattle.verdict_blocks.specs.Keeping.{block_at};
ghost use Rattle.levels.specs.Table.{Shared};
ghost use Rattle.verdict_blocks.specs.Blocks.{zero_at};
ghost use Rattle.verdict.specs.Feed.{fed_block, fed_state, lent_to, feed_fault, state_on, answer_on, FeedMet};
ghost use Rattle.verdict_states.specs.States.{state_from, numbers_of};
ghost use Rattle.verdict_blocks.specs.Going.{Ready, Running};
ghost use Rattle.verdict.specs.Going.{FedTo, Feedable};

use crate::{answer, behind, refusals};
use refusal::Refusal;
use table::Row;
use verdict_blocks::votes;

// All sixteen blocks: own, before with the unknown vote 0 and with 15, after.
fn feed_ways(
    state: &mut [u64],
    row: Row,
    next: u64,
    votes: [u8; 66],
    line: &[u8],
    room: &mut [u8],
    sent: &[u8],
    base: usize,
    scratch: &mut [u8],
)
    requires { (length state.old ≡ 683)
        × Running row (get_or state.old 1 0) (length line.now) (frames_of row (length line.now)) (length room.old) base (length scratch.old)
        × Voted row line.now votes
        × ((b : ℕ) → b < 16 → Ready (get_or state.old 1 0) (frames_of row (length line.now)) (block_at state.old b))
        × (next ≤ 16)
        × (get_or state.old 4 0 ≤ 15)
        × (get_or state.old 6 0 ≤ 15) }
    ensures { FedTo state.old
        (λ (b : ℕ).
        fed_block row (state_from state.old) line.now next
        (λ (j : ℕ). lent_from base (digits_of (quarter_of sent.now j))) (b / 4) (b % 4))
        4 state.new }
{
    let pattern = state[1];
    let older = state[3];
    let last = state[4];
    let older_all = state[5];
    let last_all = state[6];
    votes::feed_own(
        state, row, last, votes, line, pattern, room, sent, base, scratch,
    );
    votes::feed_before(
        state, 1, row, older, last, votes, line, pattern, room, sent, base, scratch,
    );
    votes::feed_before(
        state, 2, row, older_all, last_all, votes, line, pattern, room, sent, base, scratch,
    );
    behind::feed_next(
        state, row, next, votes, line, pattern, room, sent, base, scratch,
    );
}

// The number of the first digit lent, as it is held; no reading comes to a number over 2^62.
fn base_of(first: u64) -> usize
    ensures { (result ≡ zero_at + min first 4611686018427387904) × (result < 9223372036854775808) }
{
    2305843009213693952 + first.min(4611686018427387904) as usize
}

// Room for what a pattern is held against.
fn empty_scratch() -> [u8; 128]
    ensures { 128 ≡ length result }
{
    [0; 128]
}

// A feed that is not refused.
fn feed_frames(state: &mut [u64], row: Row, line: &[u8], next: u64, sent: &[u8], first: u64)
    requires { Feedable row state.old (length line.now) next }
    ensures { state.new
        ≡ numbers_of (fed_state row (state_from state.old) line.now next (lent_to sent.now first)) }
{
    let votes = judge::read_votes(row, line);
    let frames = line.len() / row.bytes;
    let size = judge::room_of(row, frames);
    let mut room = judge::empty_room();
    let mut scratch = empty_scratch();
    let base = base_of(first);
    feed_ways(
        state,
        row,
        next,
        votes,
        line,
        &mut room[0..size],
        sent,
        base,
        &mut scratch[0..128],
    );
    verdict_heads::feed_head(state, votes, frames);
}

// A level's row is known: fed and answered, if nothing is at fault.
fn feed_on(
    row: Row,
    state: &mut [u64],
    line: &[u8],
    next: u64,
    sent: &[u8],
    first: u64,
    answer: &mut [u64],
) -> Result<(), Refusal>
    requires { Shared row × (length state.old ≡ 683) × (answer.old ≡ replicate 88 0) }
    ensures { (refusal_in result ≡ feed_fault row (state_from state.old) (length line.now) next (length sent.now))
        × (state.new ≡ state_on row state.old line.now next sent.now first)
        × (answer.new ≡ answer_on row state.old line.now next sent.now first) }
{
    refusals::feed_fault(row, state, line.len(), next, sent.len())?;
    feed_frames(state, row, line, next, sent, first);
    answer::tell_all(state, answer);
    Ok(())
}

// Feeds the next frames of a recording, 0 to 64, to a state, and answers for all that were fed. Any state, any line, any vote, any digits sent, any number of the
// first of them: see specs/Feed.antt.
pub fn feed(
    state: &mut [u64; 683],
    line: &[u8],
    next: u64,
    sent: &[u8],
    first: u64,
    answer: &mut [u64; 88],
) -> Result<(), Refusal>
    ensures { FeedMet state.old line.now next sent.now first (refusal_in result) state.new answer.new }
{
    *answer = [0; 88];
    match table::level_of(state[0]) {
        Some(row) => feed_on(row, state, line, next, sent, first, answer),
        None => Err(Refusal::State),
    }
}
