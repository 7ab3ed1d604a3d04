// The C face of the plain engine: the arguments and the answers of the quick one's calls.
ghost use Rattle.spritbobbin.specs.PlainFace.{PlainMultiplexMet, PlainReadNotesMet, PlainExtractMet};
ghost use Rattle.spritbobbin.specs.PlainFace.{answered_answer, notes_read_answer};
ghost use Rattle.std.specs.Prelude.{◌≡◌};
ghost use Rattle.engine.specs.Engine.{answered_in, notes_read_in};

use engine::Errors;
use engine::refusals::{Refusal, Refused};

// An answer as C is given it: the refusal's number, and the numbers of the array. No line of it is the quick engine's.
fn answered_numbers(answered: Result<[usize; 4], Refused>) -> (u64, [u64; 5])
    ensures { (result.0 ≡ (answered_in answered).refusal) × (result.1 ≡ answered_answer (answered_in answered)) }
{
    match answered {
        Ok(c) => (0, [c[0] as u64, c[1] as u64, c[2] as u64, c[3] as u64, 0]),
        Err(refused) => (
            u64::from(refused.refusal),
            [0, 0, 0, 0, refused.frame as u64],
        ),
    }
}

fn errors_numbers(read: Result<Errors, Refusal>) -> (u64, [u64; 5])
    ensures { (result.0 ≡ (notes_read_in read).refusal) × (result.1 ≡ notes_read_answer (notes_read_in read)) }
{
    match read {
        Ok(errors) => {
            let e = errors.dissent;
            (
                0,
                [
                    errors.alignment as u64,
                    e[0] as u64,
                    e[1] as u64,
                    e[2] as u64,
                    e[3] as u64,
                ],
            )
        }
        Err(refusal) => (u64::from(refusal), [0; 5]),
    }
}

// Multiplexes by the plain engine; answer: four digit counts, named frame. Returns the refusal number.
#[unsafe(no_mangle)]
pub extern "C" fn spritbobbin_plain_multiplex(
    level: u64,
    earlier: u64,
    line: &mut [u8],
    notes: &[u8],
    buffer: &[u8],
    answer: &mut [u64; 5],
) -> u64
    ensures { PlainMultiplexMet level earlier line.old notes.now buffer.now result line.new answer.new }
{
    let sent = plain::multiplex(level, earlier, line, notes, buffer);
    let (refusal, numbers) = answered_numbers(sent);
    *answer = numbers;
    refusal
}

// Reads the notes by the plain engine; answer: alignment digits that differ, dissenting digits of tributaries 1 to 4.
#[unsafe(no_mangle)]
pub extern "C" fn spritbobbin_plain_read_notes(
    level: u64,
    line: &[u8],
    notes: &mut [u8],
    answer: &mut [u64; 5],
) -> u64
    ensures { PlainReadNotesMet level line.now notes.old result notes.new answer.new }
{
    let read = plain::read_notes(level, line, notes);
    let (refusal, numbers) = errors_numbers(read);
    *answer = numbers;
    refusal
}

// Extracts by the plain engine; answer: four digit counts, named frame.
#[unsafe(no_mangle)]
pub extern "C" fn spritbobbin_plain_extract(
    level: u64,
    earlier: u64,
    line: &[u8],
    notes: &[u8],
    buffer: &mut [u8],
    answer: &mut [u64; 5],
) -> u64
    ensures { PlainExtractMet level earlier line.now notes.now buffer.old result buffer.new answer.new }
{
    let taken = plain::extract(level, earlier, line, notes, buffer);
    let (refusal, numbers) = answered_numbers(taken);
    *answer = numbers;
    refusal
}
