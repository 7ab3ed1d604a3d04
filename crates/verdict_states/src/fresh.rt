// A fresh state (specs/States.antt): nothing was fed, and all sixteen blocks are as before the first digit.
ghost use Rattle.std.specs.Prelude.{◌≡◌, cond, [], ◌∷◌, ◌++◌, ℕ, ◌+◌, ◌*◌, ◌<◌, eqb, length, take};
ghost use Rattle.levels.specs.Order.{has_negative};
ghost use Rattle.refusal.specs.Refusal.{refusal_in};
ghost use Rattle.verdict_blocks.specs.Blocks.{fresh_block};
ghost use Rattle.verdict_blocks.specs.Keeping.{block_numbers, with_block};
ghost use Rattle.verdict_states.specs.States.{blocks_numbers, numbers_of, fresh_state, fresh_fault, no_state, FreshMet};

use crate::validity;
use levels::{faults, order};
use refusal::Refusal;
use table::Row;
use verdict_blocks::keeping;
use verdict_blocks::standing::Standing;

// With digits sent they are known from the first one on.
fn fresh_standing(pattern: u64) -> Standing
    ensures { result ≡ (fresh_block pattern).standing }
{
    Standing {
        read: 0,
        from: 0,
        taken: u64::from(pattern == 0),
        right: 0,
        low: 2305843009213693944,
        at: 0,
        window: 0,
        follows: 0,
    }
}

fn put_fresh(block: &mut [u64], pattern: u64)
    requires { length block.old ≡ 42 }
    ensures { block.new ≡ block_numbers (fresh_block pattern) }
{
    let v = slips::begin();
    let e = [0u64; 17];
    keeping::put_block(block, fresh_standing(pattern), &v, &e);
}

// Block b of a state.
fn put_fresh_at(state: &mut [u64], b: usize, pattern: u64)
    requires { (length state.old ≡ 683) × (b < 16) }
    ensures { state.new ≡ with_block state.old b (fresh_block pattern) }
{
    let a = 11 + 42 * b;
    put_fresh(&mut state[a..a + 42], pattern);
}

// The vote before all frames, or the one for an unknown vote where the level looks at none.
fn first_vote(row: Row, earlier: u64, unknown: u64) -> u64
    ensures { result ≡ cond (has_negative row) earlier unknown }
{
    if order::has_negative(row) {
        earlier
    } else {
        unknown
    }
}

// All sixteen.
fn put_blocks(state: &mut [u64], pattern: u64)
    requires { length state.old ≡ 683 }
    ensures { state.new ≡ take 11 state.old ++ blocks_numbers 16 (λ (b : ℕ). fresh_block pattern) }
{
    for b in 0..16 {
        put_fresh_at(state, b, pattern);
    }
}

// What stands before the blocks and is not 0.
fn put_head(state: &mut [u64], level: u64, pattern: u64, last: u64, other: u64)
    requires { state.old ≡ no_state }
    ensures { (length state.new ≡ 683)
        × (take 11 state.new ≡ (level ∷ pattern ∷ 0 ∷ 0 ∷ last ∷ 15 ∷ other ∷ 0 ∷ 0 ∷ 0 ∷ 0 ∷ [])) }
{
    state[0] = level;
    state[1] = pattern;
    state[4] = last;
    state[5] = 15;
    state[6] = other;
}

// The first of 13 and 5 that applies.
fn fresh_fault(row: Row, earlier: u64, pattern: u64) -> Result<(), Refusal>
    ensures { refusal_in result ≡ fresh_fault row earlier pattern }
{
    if validity::bad_pattern(pattern) {
        Err(Refusal::Pattern)
    } else if faults::bad_earlier(row, earlier) {
        Err(Refusal::NoteBits)
    } else {
        Ok(())
    }
}

// A level's row is known: the state is zeros, and becomes a fresh one if nothing is at fault.
fn fresh_on(
    row: Row,
    level: u64,
    earlier: u64,
    pattern: u64,
    state: &mut [u64],
) -> Result<(), Refusal>
    requires { state.old ≡ no_state }
    ensures { (refusal_in result ≡ fresh_fault row earlier pattern)
        × (state.new ≡ cond (eqb (fresh_fault row earlier pattern) 0) (numbers_of (fresh_state row level earlier pattern)) no_state) }
{
    fresh_fault(row, earlier, pattern)?;
    let last = first_vote(row, earlier, 0);
    let other = first_vote(row, earlier, 15);
    put_head(state, level, pattern, last, other);
    put_blocks(state, pattern);
    Ok(())
}

// Makes a fresh state; one that is refused is zeros, and is written. Any level number, any vote, any pattern number: see specs/States.antt.
pub fn fresh(level: u64, earlier: u64, pattern: u64, state: &mut [u64; 683]) -> Result<(), Refusal>
    ensures { FreshMet level earlier pattern (refusal_in result) state.new }
{
    *state = [0; 683];
    match table::level_of(level) {
        Some(row) => fresh_on(row, level, earlier, pattern, state),
        None => Err(Refusal::Level),
    }
}
