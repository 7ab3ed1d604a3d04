// One way of reading: the tributaries of a line are extracted by votes, and their blocks carried over its frames.
ghost use Rattle.std.specs.Prelude.{◌≡◌, ◌≢◌, ℕ, ◌+◌, ◌*◌, ◌/◌, ◌<◌, ◌≤◌, length};
ghost use Rattle.digits.specs.Digits.{digits_of};
ghost use Rattle.levels.specs.Table.{Shared};
ghost use Rattle.levels.specs.Sizes.{quarter_of};
ghost use Rattle.levels.specs.Order.{counts_of};
ghost use Rattle.slips.specs.Slips.{lent_from};
ghost use Rattle.patterns.specs.Patterns.{OneOfTwo};
ghost use Rattle.verdict_blocks.specs.Readings.{ran_on};
ghost use Rattle.verdict_blocks.specs.Keeping.{block_at, with_block, with_four};
ghost use Rattle.verdict_blocks.specs.Going.{Counted, Carrying, carried_over, Ready, Running};

use crate::keeping;
use table::Row;

// Block b of a state, with tributary j (from 0).
fn feed_at(
    state: &mut [u64],
    b: usize,
    row: Row,
    earlier: u64,
    notes: &[u8],
    j: usize,
    total: usize,
    pattern: u64,
    room: &[u8],
    sent: &[u8],
    base: usize,
    scratch: &mut [u8],
)
    requires { (length state.old ≡ 683)
        × (b < 16)
        × Carrying row pattern (length notes.now) (length room.now / 4) j base (length scratch.old) (block_at state.old b)
        × Counted row earlier notes.now j total }
    ensures { state.new
        ≡ with_block state.old b
        (carried_over row pattern (lent_from base (digits_of (quarter_of sent.now j))) (digits_of (quarter_of room.now j)) earlier
        notes.now j (block_at state.old b)) }
{
    let a = 11 + 42 * b;
    keeping::feed_quarter(
        &mut state[a..a + 42],
        row,
        earlier,
        notes,
        j,
        total,
        pattern,
        room,
        sent,
        base,
        scratch,
    );
}

// The four tributaries of way w, whose readings `room` has, so many digits each.
fn feed_four(
    state: &mut [u64],
    w: usize,
    row: Row,
    earlier: u64,
    notes: &[u8],
    counts: [usize; 4],
    pattern: u64,
    room: &[u8],
    sent: &[u8],
    base: usize,
    scratch: &mut [u8],
)
    requires { (length state.old ≡ 683)
        × (w < 4)
        × Shared row
        × (length notes.now ≤ 64)
        × (length notes.now * row.room ≤ 8 * (length room.now / 4))
        × (pattern ≢ 0 → OneOfTwo pattern)
        × ((j : ℕ) → j < 4 → Ready pattern (length notes.now) (block_at state.old (4 * w + j)))
        × (base < 9223372036854775808)
        × (length scratch.old ≡ 128)
        × (counts ≡ counts_of row earlier notes.now (length notes.now)) }
    ensures { state.new
        ≡ with_four state.old w
        (λ (j : ℕ).
        carried_over row pattern (lent_from base (digits_of (quarter_of sent.now j))) (digits_of (quarter_of room.now j)) earlier
        notes.now j (block_at state.old (4 * w + j))) }
{
    for j in 0..4 {
        feed_at(
            state,
            4 * w + j,
            row,
            earlier,
            notes,
            j,
            counts[j],
            pattern,
            room,
            sent,
            base,
            scratch,
        );
    }
}

// The four tributaries of way w, by a line's notes and the vote before them.
pub fn feed_way(
    state: &mut [u64],
    w: usize,
    row: Row,
    earlier: u64,
    notes: &[u8],
    line: &[u8],
    pattern: u64,
    room: &mut [u8],
    sent: &[u8],
    base: usize,
    scratch: &mut [u8],
)
    requires { (length state.old ≡ 683)
        × (w < 4)
        × Running row pattern (length line.now) (length notes.now) (length room.old) base (length scratch.old)
        × ((j : ℕ) → j < 4 → Ready pattern (length notes.now) (block_at state.old (4 * w + j))) }
    ensures { state.new
        ≡ with_four state.old w
        (λ (j : ℕ).
        ran_on row pattern (lent_from base (digits_of (quarter_of sent.now j))) line.now earlier notes.now j
        (block_at state.old (4 * w + j))) }
{
    let counts = extraction::extract_all(row, earlier, line, notes, room);
    feed_four(
        state, w, row, earlier, notes, counts, pattern, room, sent, base, scratch,
    );
}
