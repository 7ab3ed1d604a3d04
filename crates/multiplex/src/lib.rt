// Multiplexing from a known start: four tributaries and the notes of the frames become a line. specs/Multiplex.antt says what the call
// answers and leaves, specs/Line.antt of crate levels what each digit of the line is. The head of a set is sent by crate heads.
#![tactic(auto)]

ghost use Rattle.std.specs.Prelude.{◌≡◌, ◌+◌, ◌*◌, ◌/◌, ◌<◌, ◌≤◌, length};
ghost use Rattle.digits.specs.Digits.{tab};
ghost use Rattle.words.specs.Words.{Ready};
ghost use Rattle.weave.specs.Weave.{spread_of, Has};
ghost use Rattle.levels.specs.Table.{Shared};
ghost use Rattle.levels.specs.Sizes.{quarter_of, Accepted};
ghost use Rattle.heads.specs.Sending.{Sending};
ghost use Rattle.multiplex.specs.Running.{next_of, Ran, AllSent};
ghost use Rattle.levels.specs.Faults.{send_answer_on, numbers_of};
ghost use Rattle.multiplex.specs.Multiplex.{line_on, Met};

use levels::faults::Refused;
use levels::{faults, places};
use refusal::Refusal;
use table::Row;
use weave::Next;
use weave::table::spread_table;
use words::Writer;

// A run of tributary digits, so many columns, from the four quarters.
fn send_run(
    table: &[u32; 256],
    line: &mut [u8],
    buffer: &[u8],
    next: &mut [usize; 4],
    w: Writer,
    columns: usize,
) -> Writer
    requires { (table.now ≡ tab 256 0 (spread_of 8))
        × Ready w.fill w.held
        × (8 * w.at + (w.fill + 4 * columns) ≤ 8 * length line.old)
        × (length buffer.now ≡ 4 * (length buffer.now / 4))
        × Has (quarter_of buffer.now 0) (quarter_of buffer.now 1) (quarter_of buffer.now 2) (quarter_of buffer.now 3) (next_of next.old) columns }
    ensures { Ran buffer.now next.old columns line.old line.new w result next.new }
{
    let q = buffer.len() / 4;
    let half = 2 * q;
    let three = 3 * q;
    let end = 4 * q;
    let i = Next {
        a: next[0],
        b: next[1],
        c: next[2],
        d: next[3],
    };
    *next = [i.a + columns, i.b + columns, i.c + columns, i.d + columns];
    weave::send_columns(
        table,
        line,
        &buffer[0..q],
        &buffer[q..half],
        &buffer[half..three],
        &buffer[three..end],
        w,
        i,
        columns,
    )
}

// A set of frame f: its head, then the run up to its end.
fn send_set(
    table: &[u32; 256],
    row: Row,
    earlier: u64,
    line: &mut [u8],
    notes: &[u8],
    buffer: &[u8],
    next: &mut [usize; 4],
    w: Writer,
    f: usize,
    set: usize,
) -> Writer
    requires { (table.now ≡ tab 256 0 (spread_of 8))
        × (f < length notes.now)
        × (set < row.sets)
        × (length buffer.now ≡ 4 * (length buffer.now / 4))
        × Sending row earlier notes.now buffer.now (f * row.digits + set * row.set) line.old w next.old }
    ensures { Sending row earlier notes.now buffer.now (f * row.digits + (set + 1) * row.set) line.new result next.new }
{
    let headed = heads::send_head(row, earlier, line, notes, buffer, next, w, f, set);
    let columns = (row.set - places::head_end(row, set)) / 4;
    send_run(table, line, buffer, next, headed, columns)
}

// The sets of frame f.
fn send_frame(
    table: &[u32; 256],
    row: Row,
    earlier: u64,
    line: &mut [u8],
    notes: &[u8],
    buffer: &[u8],
    next: &mut [usize; 4],
    w0: Writer,
    f: usize,
) -> Writer
    requires { (table.now ≡ tab 256 0 (spread_of 8))
        × (f < length notes.now)
        × (length buffer.now ≡ 4 * (length buffer.now / 4))
        × Sending row earlier notes.now buffer.now (f * row.digits) line.old w0 next.old }
    ensures { Sending row earlier notes.now buffer.now ((f + 1) * row.digits) line.new result next.new }
{
    let mut w = w0;
    for set in 0..row.sets {
        w = send_set(table, row, earlier, line, notes, buffer, next, w, f, set);
    }
    w
}

// All frames, one after the other, into the line. Answers how many digits of each tributary they took.
fn send_frames(row: Row, earlier: u64, line: &mut [u8], notes: &[u8], buffer: &[u8]) -> [usize; 4]
    requires { Shared row × Accepted row (length line.old) (length notes.now) (length buffer.now) }
    ensures { AllSent row earlier notes.now buffer.now line.old result line.new }
{
    let table = spread_table();
    let mut next = [0usize; 4];
    let mut w = Writer {
        at: 0,
        held: 0,
        fill: 0,
    };
    for f in 0..notes.len() {
        w = send_frame(&table, row, earlier, line, notes, buffer, &mut next, w, f);
    }
    words::finish(line, w);
    next
}

// A level's row is known: the lengths and the notes are judged, and the line is written.
fn multiplex_on(
    row: Row,
    earlier: u64,
    line: &mut [u8],
    notes: &[u8],
    buffer: &[u8],
) -> Result<[usize; 4], Refused>
    requires { Shared row }
    ensures { (numbers_of result ≡ send_answer_on row earlier (length line.old) notes.now (length buffer.now))
        × (line.new ≡ line_on row earlier line.old notes.now buffer.now) }
{
    faults::send_fault_of(row, earlier, line.len(), notes, buffer.len())?;
    let counts = send_frames(row, earlier, line, notes, buffer);
    Ok(counts)
}

// Multiplexes the notes and the quarters of the buffer into the line, and answers how many digits of each tributary they took. Any level number,
// any lengths: see specs/Multiplex.antt.
pub fn multiplex(
    level: u64,
    earlier: u64,
    line: &mut [u8],
    notes: &[u8],
    buffer: &[u8],
) -> Result<[usize; 4], Refused>
    ensures { Met level earlier line.old notes.now buffer.now (numbers_of result) line.new }
{
    let found = table::level_of(level);
    match found {
        Some(row) => multiplex_on(row, earlier, line, notes, buffer),
        None => Err(Refused::from(Refusal::Level)),
    }
}
