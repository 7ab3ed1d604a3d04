// Reading the notes of a line: each decision by the majority of its control group in its own frame, the service digits as they came, and the
// counts of errors. specs/Reading.antt says what the call answers and leaves.
#![tactic(auto)]

ghost use Rattle.std.specs.Prelude.{◌≡◌, ◌+◌, ◌*◌, ◌/◌, ◌%◌, ◌<◌, ◌≤◌, length, get_or};
ghost use Rattle.digits.specs.Digits.{digits_of, window_at};
ghost use Rattle.levels.specs.Table.{Shared};
ghost use Rattle.levels.specs.Word.{wrong_digits};
ghost use Rattle.reading.specs.Notes.{service_at, note_of, notes_of, dissents_in, four_sums};
ghost use Rattle.reading.specs.Lanes.{apart_of, group_ones, services_of, said_by};
ghost use Rattle.reading.specs.Reading.{noted_by, numbers_of, noted_from, answer_on, notes_on, ReadNotesMet};

use levels::places::FramePlace;
use levels::{lent, sizes, vote};
use refusal::Refusal;
use table::Row;

// The errors that a reading counts.
#[derive(Clone, Copy, Debug, PartialEq, Eq, Hash)]
pub struct Errors {
    // alignment digits that differ from the word, over all frames
    pub alignment: usize,
    // digits of each tributary's control groups that differ from their majority, over all frames
    pub dissent: [usize; 4],
}

// What a frame says: its note, and how many digits of each tributary's control group dissent.
#[derive(Clone, Copy)]
pub struct FrameRead {
    pub note: u8,
    pub dissent: [usize; 4],
}

// The four digits of the column at place p, which four divides, as a number: the first four of a byte, or its last four.
fn column_at(line: &[u8], p: FramePlace) -> u64
    requires { (p.0 % 4 ≡ 0) × (p.0 < 8 * length line.now) }
    ensures { (result ≡ window_at (digits_of line.now) p.0 4) × (result < 16) }
{
    let at = p.0 / 8;
    let byte = line[at] as u64;
    if p.0 % 8 == 0 { byte / 16 } else { byte % 16 }
}

// The digits of a column, eight bits to each: the column is copied to four places seven bits apart, and of each copy one digit stays.
fn apart(column: u64) -> u64
    requires { column < 16 }
    ensures { result ≡ apart_of column }
{
    (column * 0b1000000100000010000001) & 0b1000000010000000100000001
}

// The ones of the four control groups of frame f, counted at once, a column of control digits after the other.
fn group_ones(row: Row, line: &[u8], f: usize) -> u64
    requires { Shared row × (length line.now ≤ 65536) × ((f + 1) * row.bytes ≤ length line.now) }
    ensures { result ≡ group_ones row (digits_of line.now) f row.control }
{
    let mut ones: u64 = 0;
    for k in 0..row.control {
        let p = FramePlace(f * row.digits + (row.set + k * row.set));
        ones += apart(column_at(line, p));
    }
    ones
}

// Service digit k of frame f: the remote alarm digit first, then the national digits; 0 where a note of the level has not so many.
fn service_at(row: Row, line: &[u8], f: usize, k: usize) -> u8
    requires { Shared row × (length line.now ≤ 65536) × ((f + 1) * row.bytes ≤ length line.now) }
    ensures { (result ≡ service_at row (digits_of line.now) f k) × (result < 2) }
{
    if k < row.alarms + row.nationals {
        let p = FramePlace(f * row.digits + (row.alarm + k));
        lent::line_digit(line, p)
    } else {
        0
    }
}

// The service digits of frame f, the first worth 1.
fn services_at(row: Row, line: &[u8], f: usize) -> u8
    requires { Shared row × (length line.now ≤ 65536) × ((f + 1) * row.bytes ≤ length line.now) }
    ensures { (result ≡ services_of row (digits_of line.now) f) × (result < 16) }
{
    let first = service_at(row, line, f, 0) + 2 * service_at(row, line, f, 1);
    first + 4 * service_at(row, line, f, 2) + 8 * service_at(row, line, f, 3)
}

// What a frame says whose control groups, of so many digits each, have these ones, with these service digits.
fn said_by(size: usize, ones: u64, services: u8) -> FrameRead
    requires { (size ≤ 5)
        × (ones / 16777216 ≤ size)
        × (ones / 65536 % 256 ≤ size)
        × (ones / 256 % 256 ≤ size)
        × (ones % 256 ≤ size)
        × (services < 16) }
    ensures { result ≡ said_by size (ones / 16777216) (ones / 65536 % 256) (ones / 256 % 256) (ones % 256) services }
{
    let a = vote::decide((ones / 16777216) as usize, size);
    let b = vote::decide((ones / 65536 % 256) as usize, size);
    let c = vote::decide((ones / 256 % 256) as usize, size);
    let d = vote::decide((ones % 256) as usize, size);
    let low = digits::digit_of(a.stuffed) + 2 * digits::digit_of(b.stuffed);
    let stuffings = low + 4 * digits::digit_of(c.stuffed) + 8 * digits::digit_of(d.stuffed);
    FrameRead {
        note: stuffings + 16 * services,
        dissent: [a.dissent, b.dissent, c.dissent, d.dissent],
    }
}

// The note of frame f, by its own control groups and service digits.
pub fn read_note(row: Row, line: &[u8], f: usize) -> FrameRead
    requires { Shared row × (length line.now ≤ 65536) × ((f + 1) * row.bytes ≤ length line.now) }
    ensures { (result.note ≡ note_of row (digits_of line.now) f) × (result.dissent ≡ dissents_in row (digits_of line.now) f) }
{
    let ones = group_ones(row, line, f);
    let services = services_at(row, line, f);
    said_by(row.control, ones, services)
}

// How many digits of the word at place p of a line are wrong: the ones in the difference of the two numbers, read at once.
fn word_errors(row: Row, line: &[u8], p: FramePlace) -> u32
    requires { Shared row × (p.0 + row.len ≤ 8 * length line.now) × (length line.now ≤ 65536) }
    ensures { result ≡ wrong_digits row (digits_of line.now) p.0 }
{
    let window = words::read_digits(line, p.0, row.len);
    u64::count_ones(window ^ row.word as u64)
}

// Four counts and four more, added one by one.
fn four_sums(a: [usize; 4], b: [usize; 4]) -> [usize; 4]
    requires { (get_or a 0 0 + get_or b 0 0 < 65536)
        × (get_or a 1 0 + get_or b 1 0 < 65536)
        × (get_or a 2 0 + get_or b 2 0 < 65536)
        × (get_or a 3 0 + get_or b 3 0 < 65536) }
    ensures { result ≡ four_sums a b }
{
    [a[0] + b[0], a[1] + b[1], a[2] + b[2], a[3] + b[3]]
}

// Reads the notes of a line, and counts the wrong alignment digits and the dissenting digits of each tributary. What `read_note` does stands
// here once more: so small are its parts that the compiler takes each into the loop, and the row is not copied for a call.
pub fn read_frames(row: Row, line: &[u8], notes: &mut [u8]) -> Errors
    requires { Shared row × (length line.now ≡ length notes.old * row.bytes) × (length notes.old ≤ 64) }
    ensures { (noted_by result ≡ noted_from row (digits_of line.now) (length notes.old))
        × (notes.new ≡ notes_of row (digits_of line.now) (length notes.old)) }
{
    let mut alignment: usize = 0;
    let mut dissent = [0usize; 4];
    for (f, note) in notes.iter_mut().enumerate() {
        let ones = group_ones(row, line, f);
        let services = services_at(row, line, f);
        let read = said_by(row.control, ones, services);
        *note = read.note;
        // The borrow checker covers no call that lays its result in an array already there, so the sums have a name of their own.
        let sums = four_sums(dissent, read.dissent);
        dissent = sums;
        let start = FramePlace(f * row.digits);
        alignment += word_errors(row, line, start) as usize;
    }
    Errors { alignment, dissent }
}

// A level's row is known: the lengths are judged, and the notes are read.
fn read_notes_on(row: Row, line: &[u8], notes: &mut [u8]) -> Result<Errors, Refusal>
    requires { Shared row }
    ensures { (numbers_of result ≡ answer_on row line.now (length notes.old))
        × (notes.new ≡ notes_on row line.now notes.old) }
{
    sizes::frames_refusal(row, line.len(), notes.len())?;
    let errors = read_frames(row, line, notes);
    Ok(errors)
}

// Reads the notes of the line into the notes, and answers the errors that it counts. Any level number, any lengths: see specs/Reading.antt.
pub fn read_notes(level: u64, line: &[u8], notes: &mut [u8]) -> Result<Errors, Refusal>
    ensures { ReadNotesMet level line.now notes.old (numbers_of result) notes.new }
{
    let found = table::level_of(level);
    match found {
        Some(row) => read_notes_on(row, line, notes),
        None => Err(Refusal::Level),
    }
}
