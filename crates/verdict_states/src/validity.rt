// Which states are valid (specs/States.antt): those whose numbers leave room for 64 frames more.
ghost use Rattle.std.specs.Prelude.{◌≡◌, ◌&&◌, ◌||◌, not, ℕ, ◌+◌, ◌^◌, ◌<◌, ◌≤◌, eqb, leb, ltb, length, get_or};
ghost use Rattle.slips.specs.Slips.{step_price};
ghost use Rattle.verdict_blocks.specs.Keeping.{block_from, block_at};
ghost use Rattle.verdict_states.specs.States.{state_from, bad_pattern, good_lanes, good_standing, good_window, good_block, good_blocks, few_changes, good_head, is_valid};

use verdict_blocks::keeping;
use verdict_blocks::standing::Standing;

// A lane behind its neighbour: not too dear, and no more than a step apart.
fn good_pair(a: u64, b: u64) -> bool
    requires { a ≤ 4611686018427387904 }
    ensures { result ≡ (leb b 4611686018427387904 && (leb b (a + step_price) && leb a (b + step_price))) }
{
    b <= 4611686018427387904 && b <= a + 68719476737 && a <= b + 68719476737
}

fn good_lanes(v: &[u64; 17]) -> bool
    ensures { result ≡ good_lanes v.now 16 }
{
    if 4611686018427387904 < v[0] {
        return false;
    }
    for k in 0..16 {
        if !good_pair(v[k], v[k + 1]) {
            return false;
        }
    }
    true
}

// As far as a pattern is followed that is not there yet.
fn good_follows(pattern: u64, s: Standing) -> bool
    requires { pattern ≤ 23 }
    ensures { result ≡ (ltb s.follows 64 && (eqb s.follows 0 || leb (pattern + s.follows) s.read)) }
{
    s.follows < 64 && (s.follows == 0 || pattern + s.follows <= s.read)
}

// Where lane 0 and the pattern's window are.
fn good_places(s: Standing) -> bool
    ensures { result
        ≡ (leb 1152921504606846976 s.low
        && (leb s.low 3458764513820540928 && (leb s.at 6917529027641081856 && ltb s.window (2 ^ 23)))) }
{
    1152921504606846976 <= s.low
        && s.low <= 3458764513820540928
        && s.at <= 6917529027641081856
        && s.window < 8388608
}

// Whether what was sent is known, with digits always.
fn good_taken(pattern: u64, taken: u64) -> bool
    ensures { result ≡ (leb taken 1 && (eqb taken 1 || not (eqb pattern 0))) }
{
    taken <= 1 && (taken == 1 || pattern != 0)
}

// How many digits there are.
fn good_counts(s: Standing) -> bool
    ensures { result ≡ (leb s.read 1152921504606846976 && leb (s.from + s.right) s.read) }
{
    s.read <= 1152921504606846976 && s.right <= s.read && s.from <= s.read - s.right
}

#[tactic(auto, unfolding(crate::specs::States::good_standing))]
fn good_standing(pattern: u64, s: Standing) -> bool
    requires { pattern ≤ 23 }
    ensures { result ≡ good_standing pattern s }
{
    good_counts(s) && good_taken(pattern, s.taken) && good_places(s) && good_follows(pattern, s)
}

// Whether a pattern that was taken up is held from lane 0's digit on. Without this a state could ask for more of its digits than anyone waits for.
fn good_window(pattern: u64, s: Standing) -> bool
    ensures { result ≡ good_window pattern s }
{
    pattern == 0 || s.taken == 0 || s.low <= s.at && s.at - s.low == s.read
}

fn good_block(block: &[u64], pattern: u64) -> bool
    requires { (length block.now ≡ 42) × (pattern ≤ 23) }
    ensures { result ≡ good_block pattern (block_from block.now) }
{
    let s = keeping::standing_of(block);
    if !good_standing(pattern, s) {
        return false;
    }
    if !good_window(pattern, s) {
        return false;
    }
    let mut v = [0u64; 17];
    keeping::load(block, 8, &mut v);
    good_lanes(&v)
}

// Block b of a state.
fn good_at(state: &[u64], b: usize, pattern: u64) -> bool
    requires { (length state.now ≡ 683) × (b < 16) × (pattern ≤ 23) }
    ensures { result ≡ good_block pattern (block_at state.now b) }
{
    let a = 11 + 42 * b;
    good_block(&state[a..a + 42], pattern)
}

fn good_blocks(state: &[u64], pattern: u64) -> bool
    requires { (length state.now ≡ 683) × (pattern ≤ 23) }
    ensures { result ≡ good_blocks pattern (block_at state.now) 16 }
{
    for b in 0..16 {
        if !good_at(state, b, pattern) {
            return false;
        }
    }
    true
}

pub fn bad_pattern(pattern: u64) -> bool
    ensures { result ≡ bad_pattern pattern }
{
    !matches!(pattern, 0 | 15 | 23)
}

// Few changes of each tributary's decision, from place 7 on.
fn few_changes(state: &[u64]) -> bool
    requires { length state.now ≡ 683 }
    ensures { result ≡ few_changes (λ (j : ℕ). get_or state.now (7 + j) 0) }
{
    state[7] <= 4611686018427387904
        && state[8] <= 4611686018427387904
        && state[9] <= 4611686018427387904
        && state[10] <= 4611686018427387904
}

// The votes held, from place 3 on.
fn good_votes(state: &[u64]) -> bool
    requires { length state.now ≡ 683 }
    ensures { result
        ≡ (leb (get_or state.now 3 0) 15
        && (leb (get_or state.now 4 0) 15 && (leb (get_or state.now 5 0) 15 && leb (get_or state.now 6 0) 15))) }
{
    state[3] <= 15 && state[4] <= 15 && state[5] <= 15 && state[6] <= 15
}

#[tactic(auto, unfolding(crate::specs::States::good_head, crate::specs::States::state_from))]
fn good_head(state: &[u64]) -> bool
    requires { length state.now ≡ 683 }
    ensures { result ≡ good_head (state_from state.now) }
{
    !bad_pattern(state[1]) && state[2] <= 1 && good_votes(state) && few_changes(state)
}

// Whether a state is valid.
pub fn is_valid(state: &[u64]) -> bool
    requires { length state.now ≡ 683 }
    ensures { result ≡ is_valid (state_from state.now) }
{
    good_head(state) && good_blocks(state, state[1])
}
