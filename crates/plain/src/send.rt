// What is sent: the line, digit by digit.
ghost use Rattle.std.specs.Prelude.{◌≡◌, cond, ◌+◌, ◌*◌, ◌-◌, ◌/◌, ◌%◌, ◌<◌, length};
ghost use Rattle.engine.specs.Engine.{packed, carries_at, sent_at, counts_to};
ghost use Rattle.engine.specs.Walk.{Regular, Fits, Counted};

use engine::frame::Place;
use engine::{frame, packed};
use table::Row;

// The digit at a place for justification: the tributary's next, where the place carries one, and else the digit of an unused place.
fn justified(row: Row, earlier: u64, notes: &[u8], p: usize, next: u8, unused: u8) -> u8
    requires { Regular row × (p / row.digits < length notes.now) × (next < 2) × (unused < 2) }
    ensures { (result ≡ cond (carries_at row earlier notes.now p) next unused) × (result < 2) }
{
    if frame::carries_at(row, earlier, notes, p) {
        next
    } else {
        unused
    }
}

// The digit that is sent at place p of the line.
fn sent_at(row: Row, earlier: u64, notes: &[u8], buffer: &[u8], next: &[usize; 4], p: usize) -> u8
    requires { Regular row × (p / row.digits < length notes.now) × Counted row earlier notes.now p next.now }
    ensures { (result ≡ sent_at row earlier notes.now buffer.now p) × (result < 2) }
{
    let f = p / row.digits;
    let q = p % row.digits;
    let j = q % 4;
    let note = notes[f];
    let vote = frame::note_bit(note, j);
    let digit = packed::quarter_digit(buffer, j, next[j]);
    match frame::place_in(row, q) {
        Place::Alignment => frame::word_digit(row, q),
        Place::Service => frame::note_bit(note, 4 + (q - row.len)),
        Place::Fixed => 1,
        Place::Control => vote,
        Place::Negative => justified(row, earlier, notes, p, digit, 1),
        Place::Positive => justified(row, earlier, notes, p, digit, 1),
        Place::Tributary => digit,
    }
}

// The whole line, place by place. Answers how many digits of each tributary it took.
pub fn send(row: Row, earlier: u64, line: &mut [u8], notes: &[u8], buffer: &[u8]) -> [usize; 4]
    requires { Regular row × Fits row (length line.old) (length notes.now) }
    ensures { (result ≡ counts_to row earlier notes.now (8 * length line.old))
        × (line.new ≡ packed (length line.old) (sent_at row earlier notes.now buffer.now)) }
{
    let mut next = [0usize; 4];
    let end = 8 * line.len();
    for p in 0..end {
        let d = sent_at(row, earlier, notes, buffer, &next, p);
        packed::put_from(line, 0, p, d);
        frame::count_place(row, earlier, notes, &mut next, p);
    }
    next
}
