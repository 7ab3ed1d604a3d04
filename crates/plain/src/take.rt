// What is extracted: the digits of the tributaries, each into its quarter, by the notes. No control digit is looked at.
ghost use Rattle.std.specs.Prelude.{◌≡◌, ◌+◌, ◌*◌, ◌/◌, ◌<◌, length};
ghost use Rattle.engine.specs.Engine.{packed, counts_to, handed_at};
ghost use Rattle.engine.specs.Walk.{Regular, Fits, Counted};
ghost use Rattle.plain.specs.Walk.{Taken};

use engine::{frame, packed};
use table::Row;

// Place p of the line: where it carries a digit, that is its tributary's next.
fn take_place(
    row: Row,
    earlier: u64,
    line: &[u8],
    notes: &[u8],
    buffer: &mut [u8],
    next: &[usize; 4],
    p: usize,
)
    requires { Regular row
        × (p / 8 < length line.now)
        × (p / row.digits < length notes.now)
        × Counted row earlier notes.now p next.now
        × Taken row earlier notes.now line.now (length buffer.old / 4) p buffer.old }
    ensures { Taken row earlier notes.now line.now (length buffer.old / 4) (p + 1) buffer.new }
{
    if frame::carries_at(row, earlier, notes, p) {
        let j = p % row.digits % 4;
        let q = buffer.len() / 4;
        let i = next[j];
        if i < 8 * q {
            let d = packed::digit_from(line, 0, p);
            packed::put_from(buffer, j * q, i, d);
        }
    }
}

// The whole line, place by place. Answers how many digits each tributary got.
pub fn take(row: Row, earlier: u64, line: &[u8], notes: &[u8], buffer: &mut [u8]) -> [usize; 4]
    requires { Regular row × Fits row (length line.now) (length notes.now) × (length buffer.old ≡ 4 * (length buffer.old / 4)) }
    ensures { (result ≡ counts_to row earlier notes.now (8 * length line.now))
        × (buffer.new
        ≡ packed (length buffer.old) (handed_at row earlier notes.now line.now (8 * (length buffer.old / 4)))) }
{
    buffer.fill(0);
    let mut next = [0usize; 4];
    let end = 8 * line.len();
    for p in 0..end {
        take_place(row, earlier, line, notes, buffer, &next, p);
        frame::count_place(row, earlier, notes, &mut next, p);
    }
    next
}
