// One tributary of a line swapped in place: its control, justification and tributary places are written anew from new digits and new decisions, and no
// other digit is touched. specs/Swap.antt says what the call answers and leaves.
#![tactic(auto)]

mod columns;

ghost use Rattle.std.specs.Prelude.{◌≡◌, true, ℕ, ◌+◌, ◌/◌, ◌*◌, ◌<◌, ◌≤◌, length};
ghost use Rattle.digits.specs.Digits.{digits_of};
ghost use Rattle.refusal.specs.Refusal.{refusal_in};
ghost use Rattle.levels.specs.Table.{Shared};
ghost use Rattle.levels.specs.Sizes.{Fits};
ghost use Rattle.levels.specs.Places.{kind_of, pos_of};
ghost use Rattle.levels.specs.Order.{acts_by, carried};
ghost use Rattle.swap.specs.Filling.{Ahead, Put, Filled};
ghost use Rattle.swap.specs.Swap.{bad_tributary, bad_room, number_of, numbers_of, swapped_on, line_on, SwapMet};

use levels::places::{At, FramePlace, TributaryPlace};
use levels::{faults, lent, order, places, sent, sizes};
use refusal::Refusal;
use table::Row;
use weave::table::spread_table;

// One place of the tributary's walk: an own place gets its digit, any other stays. Answers the tributary's next digit.
fn put_one(
    row: Row,
    at: At,
    line: &mut [u8],
    p: FramePlace,
    buffer: &[u8],
    i: TributaryPlace,
    preceding: u64,
    note: u8,
    j: usize,
) -> TributaryPlace
    requires { Shared row
        × (p.0 < 8 * length line.old)
        × (j < 4)
        × (i.0 < 65536)
        × (carried (kind_of row at.set at.place) (acts_by row preceding note j) ≡ true → i.0 < 8 * length buffer.now) }
    ensures { Put row at line.old p.0 (digits_of buffer.now) i.0 note (acts_by row preceding note j) j result.0
        line.new }
{
    let kind = places::kind_of(row, at);
    if !places::is_own(kind) {
        i
    } else if order::carries_digit(row, kind, preceding, note, j) {
        lent::put_line_digit(line, p, lent::tributary_digit(buffer, i));
        TributaryPlace(i.0 + 1)
    } else {
        lent::put_line_digit(line, p, sent::idle_digit(row, kind, note, j, at.place));
        i
    }
}

// Up to which place of set s a run may reach: over its last column, but in the frame's last set, behind which the line may end.
fn run_end(row: Row, s: usize) -> usize
    requires { Shared row × (s < row.sets) }
    ensures { (row.set ≤ result + 1) × (result ≤ row.set + 3) × (row.sets ≤ s + 1 → result < row.set) }
{
    if s == row.sets - 1 {
        row.set - 1
    } else {
        row.set + 3
    }
}

// How many columns of tributary digits lie ahead in the set that go by whole bytes: in pairs, eight at least. None in a head, none from the middle of a
// byte on, and in the frame's last set as many as leave a column.
fn ahead(row: Row, at: At, x: usize) -> usize
    requires { Shared row × (at.set < row.sets) × (at.place < row.set) }
    ensures { Ahead row at x result }
{
    if x % 2 == 1 || at.place < places::head_end(row, at.set) {
        return 0;
    }
    let k = (run_end(row, at.set) - at.place) / 8 * 2;
    if k < 8 { 0 } else { k }
}

// So many columns on, in the same set or over its end.
fn columns_on(row: Row, at: At, k: usize) -> At
    requires { Shared row × (at.frame ≤ 64) × (at.set < row.sets) × (at.place < row.set) × (at.place + 4 * k < row.set + 4) }
    ensures { (p : ℕ) → at ≡ pos_of row p → result ≡ pos_of row (p + 4 * k) }
{
    if k == 0 {
        return at;
    }
    places::next_column(
        row,
        At {
            frame: at.frame,
            set: at.set,
            place: at.place + 4 * (k - 1),
        },
    )
}

// The walk over a line: every own place of tributary j (from 0) gets its digit. Each turn takes the columns that go by whole bytes, and one column of
// four places more. Answers how many digits it took.
fn fill(row: Row, earlier: u64, line: &mut [u8], notes: &[u8], buffer: &[u8], j: usize) -> usize
    requires { (j < 4) × Fits row (length line.old) (length notes.now) (length buffer.now) }
    ensures { Filled row earlier notes.now (digits_of buffer.now) j result line.old line.new }
{
    let table = spread_table();
    let n = 2 * line.len();
    let mut x: usize = 0;
    let mut i = TributaryPlace(0);
    let mut at = At {
        frame: 0,
        set: 0,
        place: j,
    };
    // How far a turn goes is not known before it: the run ahead says.
    while x < n {
        let k = ahead(row, at, x);
        columns::put_columns(&table, line, x / 2, buffer, i.0, j, k);
        i = TributaryPlace(i.0 + k);
        at = columns_on(row, at, k);
        x += k;
        let f = at.frame;
        let p = FramePlace(4 * x + j);
        let preceding = order::preceding_of(earlier, notes, f);
        let note = order::note_of(notes, f);
        i = put_one(row, at, line, p, buffer, i, preceding, note, j);
        at = places::next_column(row, at);
        x += 1;
    }
    i.0
}

// Whether a tributary is none of 1 to 4.
fn bad_tributary(tributary: u64) -> bool
    ensures { result ≡ bad_tributary tributary }
{
    tributary == 0 || 4 < tributary
}

// Whether eight times a buffer's bytes are less than one tributary's room. A buffer of 8,192 bytes has room for every line.
fn bad_room(row: Row, line: usize, buffer: usize) -> bool
    requires { Shared row × (line / row.bytes ≤ 64) }
    ensures { result ≡ bad_room row line buffer }
{
    buffer <= 8191 && 8 * buffer < line / row.bytes * row.room
}

// The first of 12, 2, 3, 4 and 5 that applies.
fn number_of(
    row: Row,
    earlier: u64,
    tributary: u64,
    line: usize,
    notes: usize,
    buffer: usize,
) -> Result<(), Refusal>
    requires { Shared row }
    ensures { refusal_in result ≡ number_of row earlier tributary line notes buffer }
{
    if bad_tributary(tributary) {
        return Err(Refusal::Tributary);
    }
    sizes::frames_refusal(row, line, notes)?;
    if bad_room(row, line, buffer) {
        return Err(Refusal::Buffer);
    }
    if faults::bad_earlier(row, earlier) {
        return Err(Refusal::NoteBits);
    }
    Ok(())
}

// A level's row is known: the rest is judged, and the tributary is written. Answers the digits taken.
fn swap_on(
    row: Row,
    earlier: u64,
    tributary: u64,
    line: &mut [u8],
    notes: &[u8],
    buffer: &[u8],
) -> Result<usize, Refusal>
    requires { Shared row }
    ensures { (numbers_of result ≡ swapped_on row earlier tributary (length line.old) notes.now (length buffer.now))
        × (line.new ≡ line_on row earlier tributary line.old notes.now buffer.now) }
{
    number_of(
        row,
        earlier,
        tributary,
        line.len(),
        notes.len(),
        buffer.len(),
    )?;
    let digits = fill(row, earlier, line, notes, buffer, (tributary - 1) as usize);
    Ok(digits)
}

// Swaps tributary 1 to 4 of the line for the digits of the buffer, by its bit of each note, and answers how many digits it took. Any numbers, any
// lengths: see specs/Swap.antt.
pub fn swap(
    level: u64,
    earlier: u64,
    tributary: u64,
    line: &mut [u8],
    notes: &[u8],
    buffer: &[u8],
) -> Result<usize, Refusal>
    ensures { SwapMet level earlier tributary line.old notes.now buffer.now (numbers_of result) line.new }
{
    let found = table::level_of(level);
    match found {
        Some(row) => swap_on(row, earlier, tributary, line, notes, buffer),
        None => Err(Refusal::Level),
    }
}
