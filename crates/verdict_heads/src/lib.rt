// The first numbers of a verdict's state after frames were fed: whether one came, the last two votes, and the changes (crate `verdict`, specs/Feed.antt, `fed_state`). A crate of its
// own below `verdict`, so that it and the wrong programs that change it are checked quickly.
#![tactic(auto)]

ghost use Rattle.std.specs.Prelude.{◌≡◌, cond, ◌&&◌, ◌∷◌, ℕ, ◌+◌, ◌%◌, ◌<◌, ◌≤◌, eqb, length, get_or, set, drop};
ghost use Rattle.std.proofs.lemmas.List.Edits.{sets};
ghost use Rattle.verdict_states.specs.States.{decided, changes_in};
ghost use Rattle.verdict_heads.specs.Heads.{votes_after, changes_after};

// Whether this is the very first frame of all.
fn is_first(came: u64, f: usize) -> bool
    ensures { result ≡ (eqb came 0 && eqb f 0) }
{
    came == 0 && f == 0
}

// Whether tributary j's decision (from 0) in frame f differs from that of the frame before: 1 if it does. The vote before the line's stands at place 0.
fn change_at(votes: [u8; 66], came: u64, j: usize, f: usize) -> u64
    requires { (j < 4) × (f < 64) }
    ensures { (result ≡ cond (eqb came 0 && eqb f 0) 0 (cond (eqb (decided (get_or votes (f + 1) 0) j) (decided (get_or votes f 0) j)) 0 1))
        × (result ≤ 1) }
{
    if is_first(came, f) {
        0
    } else {
        u64::from((votes[f + 1] >> j) % 2 != (votes[f] >> j) % 2)
    }
}

// In how many frames it differs.
fn changes_of(votes: [u8; 66], came: u64, j: usize, frames: usize) -> u64
    requires { (j < 4) × (frames ≤ 64) }
    ensures { (result ≡ changes_in came votes j frames) × (result ≤ 64) }
{
    let mut changes = 0;
    for f in 0..frames {
        changes += change_at(votes, came, j, f);
    }
    changes
}

fn put_changes(state: &mut [u64], votes: [u8; 66], came: u64, frames: usize)
    requires { (length state.old ≡ 683)
        × (frames ≤ 64)
        × ((j : ℕ) → j < 4 → get_or state.old (7 + j) 0 ≤ 4611686018427387904) }
    ensures { state.new ≡ sets state.old 7 (changes_after state.old came votes frames) }
{
    let a = state[7] + changes_of(votes, came, 0, frames);
    let b = state[8] + changes_of(votes, came, 1, frames);
    let c = state[9] + changes_of(votes, came, 2, frames);
    let d = state[10] + changes_of(votes, came, 3, frames);
    state[7] = a;
    state[8] = b;
    state[9] = c;
    state[10] = d;
}

// A vote, by its place: `older` and `last` are at 0 and 1, the line's behind them.
fn vote_at(older: u64, last: u64, votes: [u8; 66], i: usize) -> u64
    requires { i ≤ 65 }
    ensures { result ≡ get_or (older ∷ last ∷ drop 1 votes) i 0 % 16 }
{
    match i {
        0 => older % 16,
        1 => last % 16,
        _ => (votes[i - 1] % 16) as u64,
    }
}

fn came_after(came: u64, frames: usize) -> u64
    ensures { result ≡ cond (eqb frames 0) came 1 }
{
    if frames == 0 { came } else { 1 }
}

// Whether a frame came, and the last two votes with the unknown one 0 and 15.
fn put_votes(
    state: &mut [u64],
    came: u64,
    older: u64,
    last: u64,
    older_all: u64,
    last_all: u64,
    votes: [u8; 66],
    frames: usize,
)
    requires { (length state.old ≡ 683) × (frames ≤ 64) }
    ensures { state.new ≡ sets state.old 2 (votes_after came older last older_all last_all votes frames) }
{
    let now_older = vote_at(older, last, votes, frames);
    let now_last = vote_at(older, last, votes, frames + 1);
    let now_older_all = vote_at(older_all, last_all, votes, frames);
    let now_last_all = vote_at(older_all, last_all, votes, frames + 1);
    state[2] = came_after(came, frames);
    state[3] = now_older;
    state[4] = now_last;
    state[5] = now_older_all;
    state[6] = now_last_all;
}

// All of them, by the votes of a line, which the array has from place 1 on.
pub fn feed_head(state: &mut [u64], votes: [u8; 66], frames: usize)
    requires { (length state.old ≡ 683)
        × (frames ≤ 64)
        × (get_or state.old 4 0 ≤ 15)
        × ((j : ℕ) → j < 4 → get_or state.old (7 + j) 0 ≤ 4611686018427387904) }
    ensures { state.new
        ≡ sets
        (sets state.old 7
        (changes_after state.old (get_or state.old 2 0) (set votes 0 (get_or state.old 4 0)) frames))
        2
        (votes_after (get_or state.old 2 0) (get_or state.old 3 0) (get_or state.old 4 0) (get_or state.old 5 0)
        (get_or state.old 6 0) votes frames) }
{
    let came = state[2];
    let older = state[3];
    let last = state[4];
    let older_all = state[5];
    let last_all = state[6];
    let mut seen = votes;
    seen[0] = last as u8;
    put_changes(state, seen, came, frames);
    put_votes(state, came, older, last, older_all, last_all, votes, frames);
}
