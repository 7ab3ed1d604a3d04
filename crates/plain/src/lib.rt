// The plain engine: multiplexing and demultiplexing digit by digit. Besides the level table it shares nothing with the quick engine (crates
// multiplex, reading and extraction); the whole of its specification is specs/Engine.antt of crate engine, where what the three calls share
// stands too. For each place of a line, in order: ask what the place is, then read or write one digit.
#![tactic(auto)]

pub mod reading;
pub mod send;
pub mod take;

ghost use Rattle.std.specs.Prelude.{◌≡◌, length};
ghost use Rattle.engine.specs.Engine.{refusal_on, sending_on, reading_on, MultiplexMet, ReadNotesMet, ExtractMet};
ghost use Rattle.engine.specs.Engine.{answered_in, notes_read_in, answer_by, sent_line, read_answer, read_left, taken_buffer};
ghost use Rattle.engine.specs.Walk.{Regular};

use engine::refusals::{Refusal, Refused};
use engine::{Errors, refusals};
use table::Row;

// A level's row is known.
fn multiplex_on(
    row: Row,
    earlier: u64,
    line: &mut [u8],
    notes: &[u8],
    buffer: &[u8],
) -> Result<[usize; 4], Refused>
    requires { Regular row }
    ensures { (answered_in result
        ≡ answer_by row earlier (length line.old) notes.now
        (sending_on row earlier (length line.old) notes.now (length buffer.now)))
        × (line.new
        ≡ sent_line row earlier line.old notes.now buffer.now
        (sending_on row earlier (length line.old) notes.now (length buffer.now))) }
{
    refusals::sending_on(row, earlier, line.len(), notes, buffer.len())?;
    let counts = send::send(row, earlier, line, notes, buffer);
    Ok(counts)
}

// Multiplexes the notes and the quarters of the buffer into the line, by the notes and the vote before frame 0.
pub fn multiplex(
    level: u64,
    earlier: u64,
    line: &mut [u8],
    notes: &[u8],
    buffer: &[u8],
) -> Result<[usize; 4], Refused>
    ensures { MultiplexMet level earlier line.old notes.now buffer.now (answered_in result) line.new }
{
    match table::level_of(level) {
        Some(row) => multiplex_on(row, earlier, line, notes, buffer),
        None => Err(Refused {
            refusal: Refusal::Level,
            frame: 0,
        }),
    }
}

fn read_notes_on(row: Row, line: &[u8], notes: &mut [u8]) -> Result<Errors, Refusal>
    requires { Regular row }
    ensures { (notes_read_in result
        ≡ read_answer row line.now (length notes.old)
        (reading_on row (length line.now) (length notes.old)))
        × (notes.new
        ≡ read_left row line.now notes.old (reading_on row (length line.now) (length notes.old))) }
{
    refusals::reading_on(row, line.len(), notes.len())?;
    let errors = reading::read(row, line, notes);
    Ok(errors)
}

// Reads the notes of the line's frames, and counts the errors of alignment signals and control digits.
pub fn read_notes(level: u64, line: &[u8], notes: &mut [u8]) -> Result<Errors, Refusal>
    ensures { ReadNotesMet level line.now notes.old (notes_read_in result) notes.new }
{
    match table::level_of(level) {
        Some(row) => read_notes_on(row, line, notes),
        None => Err(Refusal::Level),
    }
}

fn extract_on(
    row: Row,
    earlier: u64,
    line: &[u8],
    notes: &[u8],
    buffer: &mut [u8],
) -> Result<[usize; 4], Refused>
    requires { Regular row }
    ensures { (answered_in result
        ≡ answer_by row earlier (length line.now) notes.now
        (refusal_on row earlier (length line.now) notes.now (length buffer.old)))
        × (buffer.new
        ≡ taken_buffer row earlier line.now notes.now buffer.old
        (refusal_on row earlier (length line.now) notes.now (length buffer.old))) }
{
    refusals::refusal_on(row, earlier, line.len(), notes, buffer.len())?;
    let counts = take::take(row, earlier, line, notes, buffer);
    Ok(counts)
}

// Extracts the tributaries of the line into the quarters of the buffer, by the notes given and the vote before frame 0.
pub fn extract(
    level: u64,
    earlier: u64,
    line: &[u8],
    notes: &[u8],
    buffer: &mut [u8],
) -> Result<[usize; 4], Refused>
    ensures { ExtractMet level earlier line.now notes.now buffer.old (answered_in result) buffer.new }
{
    match table::level_of(level) {
        Some(row) => extract_on(row, earlier, line, notes, buffer),
        None => Err(Refused {
            refusal: Refusal::Level,
            frame: 0,
        }),
    }
}
