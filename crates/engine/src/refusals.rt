// The refusals of the three calls, in the documents' order.
ghost use Rattle.std.specs.Prelude.{◌≡◌, ◌/◌, ◌^◌, ◌<◌, ◌≤◌, position};
ghost use Rattle.engine.specs.Engine.{bad_line, bad_buffer, bad_earlier, too_much, national_ones, too_few, refusal_with, refusal_on, sending_on, reading_on};
ghost use Rattle.engine.specs.Engine.{number_of, refusal_in, fault_in};
ghost use Rattle.engine.specs.Walk.{Regular};

use table::Row;

// The refusals that the three calls know, of those of the table of docs/GUIDE.md. An enum of the plain engine's own: it shares none with the
// quick one.
#[derive(Clone, Copy, Debug, PartialEq, Eq, Hash)]
pub enum Refusal {
    // no such level
    Level,
    // the line is no whole number of frames, or has over 64
    Line,
    // the notes are not a byte to a frame
    Notes,
    // the buffer is no four equal quarters, or has too little room
    Buffer,
    // a note has a bit that its level has not, or the vote before the first frame is none
    NoteBits,
    // a national digit of 0
    National,
}

impl From<Refusal> for u64 {
    ghost from_gives = { λ refusal number. number ≡ number_of refusal };

    fn from(refusal: Refusal) -> u64 {
        match refusal {
            Refusal::Level => 1,
            Refusal::Line => 2,
            Refusal::Notes => 3,
            Refusal::Buffer => 4,
            Refusal::NoteBits => 5,
            Refusal::National => 10,
        }
    }
}

// Why a call is refused, and the frame that refusal 5 or 10 names, or 0.
#[derive(Clone, Copy, Debug, PartialEq, Eq, Hash)]
pub struct Refused {
    pub refusal: Refusal,
    pub frame: usize,
}

// 2: no whole number of frames, or over 64 of them.
fn bad_line(row: Row, line: usize) -> bool
    requires { Regular row }
    ensures { result ≡ bad_line row line }
{
    line % row.bytes != 0 || 64 < line / row.bytes
}

// 4: no four equal quarters, or too little room.
fn bad_buffer(row: Row, line: usize, buffer: usize) -> bool
    requires { Regular row × (line / row.bytes ≤ 64) × (buffer < 2 ^ 63) }
    ensures { result ≡ bad_buffer row line buffer }
{
    buffer % 4 != 0 || 8 * (buffer / 4) < line / row.bytes * row.room
}

// 5: an earlier vote over 15, where the level has negative places; elsewhere it is not looked at.
fn bad_earlier(row: Row, earlier: u64) -> bool
    ensures { result ≡ bad_earlier row earlier }
{
    row.n < row.room && 15 < earlier
}

// 5: the first frame whose note has a bit that the level has not.
fn first_faulty(row: Row, notes: &[u8]) -> Option<usize>
    requires { Regular row }
    ensures { result ≡ position (too_much row) notes.now }
{
    let limit: usize = 1 << (4 + row.alarms + row.nationals);
    notes.iter().position(|note| limit <= *note as usize)
}

// Refused so, naming this frame.
fn refuse(refusal: Refusal, frame: usize) -> Result<(), Refused>
    ensures { fault_in result ≡ refusal_with (number_of refusal) frame }
{
    Err(Refused { refusal, frame })
}

// How many of a note's bits for national use are 1.
#[tactic(auto, unfolding(crate::specs::Engine::national_ones, crate::specs::Engine::sum_over))]
fn national_ones(row: Row, note: u8) -> usize
    requires { Regular row }
    ensures { result ≡ national_ones row note }
{
    let mut ones: usize = 0;
    for k in 0..row.nationals {
        ones += ((note >> (5 + k)) % 2) as usize;
    }
    ones
}

// 10: the first frame whose note has a bit for national use that is not 1.
fn first_lacking(row: Row, notes: &[u8]) -> Option<usize>
    requires { Regular row }
    ensures { result ≡ position (too_few row) notes.now }
{
    notes
        .iter()
        .position(|note| national_ones(row, *note) < row.nationals)
}

// 2, 3, 4 and 5 in this order: for multiplexing and for extraction.
#[tactic(auto, unfolding(crate::specs::Engine::refusal_on))]
pub fn refusal_on(
    row: Row,
    earlier: u64,
    line: usize,
    notes: &[u8],
    buffer: usize,
) -> Result<(), Refused>
    requires { Regular row × (buffer < 2 ^ 63) }
    ensures { fault_in result ≡ refusal_on row earlier line notes.now buffer }
{
    if bad_line(row, line) {
        refuse(Refusal::Line, 0)
    } else if notes.len() != line / row.bytes {
        refuse(Refusal::Notes, 0)
    } else if bad_buffer(row, line, buffer) {
        refuse(Refusal::Buffer, 0)
    } else if bad_earlier(row, earlier) {
        refuse(Refusal::NoteBits, 0)
    } else if let Some(f) = first_faulty(row, notes) {
        refuse(Refusal::NoteBits, f)
    } else {
        Ok(())
    }
}

// Then 10: for multiplexing.
pub fn sending_on(
    row: Row,
    earlier: u64,
    line: usize,
    notes: &[u8],
    buffer: usize,
) -> Result<(), Refused>
    requires { Regular row × (buffer < 2 ^ 63) }
    ensures { fault_in result ≡ sending_on row earlier line notes.now buffer }
{
    refusal_on(row, earlier, line, notes, buffer)?;
    if let Some(f) = first_lacking(row, notes) {
        refuse(Refusal::National, f)
    } else {
        Ok(())
    }
}

// 2 and 3: for reading the notes.
#[tactic(auto, unfolding(crate::specs::Engine::reading_on))]
pub fn reading_on(row: Row, line: usize, notes: usize) -> Result<(), Refusal>
    requires { Regular row }
    ensures { refusal_in result ≡ reading_on row line notes }
{
    if bad_line(row, line) {
        Err(Refusal::Line)
    } else if notes != line / row.bytes {
        Err(Refusal::Notes)
    } else {
        Ok(())
    }
}
