// The line of a multiplexer that acts on its decisions a frame late: its control digits say the notes in time, its justification digits follow
// the decisions of the frame before. Crate late makes such a line for a caller; crate judge_promises proves what the judge finds in it.
#![tactic(auto)]

ghost use Rattle.std.specs.Prelude.{◌≡◌, ◌+◌, ◌*◌, ◌<◌, ◌≤◌, length};
ghost use Rattle.digits.specs.Digits.{digits_of};
ghost use Rattle.table.specs.Table.{level_of};
ghost use Rattle.levels.specs.Table.{Shared};
ghost use Rattle.levels.specs.Sizes.{on_level};
ghost use Rattle.levels.specs.Faults.{numbers_of};
ghost use Rattle.workbench.specs.Bench.{is_control, mixed, mixed_line, LateLineMet, decided_by, DelayMet};

use digits::digit_or_zero;
use levels::faults::Refused;
use levels::places;
use levels::places::{FramePlace, Kind};
use table::Row;

fn is_control(kind: Kind) -> bool
    ensures { result ≡ is_control kind }
{
    matches!(kind, Kind::Control)
}

// The digit that a late multiplexer has at place p: a control digit of the line that says the decisions, any other of the line that acts.
fn late_digit(row: Row, said: &[u8], line: &[u8], p: usize) -> u8
    requires { Shared row }
    ensures { (result ≡ mixed row (digits_of said.now) (digits_of line.now) p) × (result < 2) }
{
    let kind = places::kind_at(row, FramePlace(p % row.digits));
    if is_control(kind) {
        digit_or_zero(said, p)
    } else {
        digit_or_zero(line, p)
    }
}

// Every control digit of the line becomes that of `said`; every other digit stays.
fn say_controls(row: Row, line: &mut [u8], said: &[u8])
    requires { Shared row × (length line.old ≤ 65536) }
    ensures { line.new ≡ mixed_line row said.now line.old }
{
    for p in 0..8 * line.len() {
        let d = late_digit(row, said, line, p);
        digits::put_digit(line, p, d);
    }
}

// The same by the level's number; where there is no such level the line stays.
fn say_controls_at(level: u64, line: &mut [u8], said: &[u8])
    requires { length line.old ≤ 65536 }
    ensures { line.new ≡ on_level (level_of level) (λ (row : Row). mixed_line row said.now line.old) line.old }
{
    let found = table::level_of(level);
    match found {
        Some(row) => say_controls(row, line, said),
        None => {}
    }
}

// The line of a multiplexer whose control digits say the notes and whose justification digits follow the late notes. `said` is left as the
// line of a right multiplexer. Both know the same vote before frame 0. The answer is that of multiplexing by the late notes; refused, the line
// stays as it was.
pub fn late_line(
    level: u64,
    earlier: u64,
    line: &mut [u8],
    said: &mut [u8],
    notes: &[u8],
    late: &[u8],
    buffer: &[u8],
) -> Result<[usize; 4], Refused>
    ensures { LateLineMet level earlier line.old said.old notes.now late.now buffer.now
        (numbers_of result) said.new line.new }
{
    let _right = multiplex::multiplex(level, earlier, said, notes, buffer);
    let counts = multiplex::multiplex(level, earlier, line, late, buffer)?;
    say_controls_at(level, line, said);
    Ok(counts)
}

// The decisions of one note and the service digits of another.
fn decided_by(last: u8, note: u8) -> u8
    ensures { result ≡ decided_by last note }
{
    last % 16 + note / 16 * 16
}

// The notes that a multiplexer acts by if it is a frame late: each frame's decisions are those of the frame before.
pub fn delay(late: &mut [u8], notes: &[u8], before: u8)
    ensures { DelayMet late.old notes.now before late.new }
{
    let mut last = before;
    for f in 0..late.len().min(notes.len()) {
        late[f] = decided_by(last, notes[f]);
        last = notes[f];
    }
}
