// The C face: the calls over numbers, slices and fixed arrays, nothing else. A slice passes as a pointer and then a length, a fixed array as
// a pointer. include/spritbobbin.h declares these functions for C; nothing checks that header against this file but the tests.
#![tactic(auto)]

pub mod begins_face;
pub mod compare_face;
pub mod copy_face;
pub mod finder_face;
pub mod judge_face;
pub mod late_face;
pub mod naming_face;
pub mod plain_face;
pub mod rack_face;
mod refused;
pub mod repair_face;
pub mod swap_face;
pub mod verdict_face;
pub mod version_face;

ghost use Rattle.std.specs.Prelude.{◌≡◌, cond};
ghost use Rattle.std.specs.Prelude.{◌∷◌, [], get_or};
ghost use Rattle.levels.specs.Faults as counting;
ghost use Rattle.multiframe.specs.Calls as building;
ghost use Rattle.reading.specs.Reading as noting;
ghost use Rattle.captures.specs.Captures.{written_in};
ghost use Rattle.spritbobbin.specs.Face.{counted_answer, noted_answer};
ghost use Rattle.spritbobbin.specs.Face.{written_answer, read_answer, CaptureWriteMet, CaptureReadMet};
ghost use Rattle.spritbobbin.specs.Face.{built_answer, MultiframeBuildMet, MultiframeApartMet};
ghost use Rattle.spritbobbin.specs.Face.{MultiplexMet, ReadNotesMet, ExtractMet, FreshMet, FeedMet, LineDigitMet};

use captures::Reading;
use levels::faults::Refused;
use reading::Errors;
use receiver::numbers;
use refusal::Refusal;

// Each answer is the numbers of the array that C lends for it: here four digit counts and the named frame.
fn counted_numbers(counts: [usize; 4], frame: usize) -> [u64; 5]
    ensures { result ≡ get_or counts 0 0 ∷ get_or counts 1 0 ∷ get_or counts 2 0 ∷ get_or counts 3 0 ∷ frame ∷ [] }
{
    [
        counts[0] as u64,
        counts[1] as u64,
        counts[2] as u64,
        counts[3] as u64,
        frame as u64,
    ]
}

// An answer as C is given it: the refusal's number, and the numbers of the array.
fn sent_numbers(sent: Result<[usize; 4], Refused>) -> (u64, [u64; 5])
    ensures { (result.0 ≡ (counting.numbers_of sent).refusal) × (result.1 ≡ counted_answer (counting.numbers_of sent)) }
{
    match sent {
        Ok(counts) => (0, counted_numbers(counts, 0)),
        Err(refused) => (
            u64::from(refused.refusal),
            counted_numbers([0; 4], refused.frame),
        ),
    }
}

// Multiplexes after an earlier vote; answer: four digit counts, named frame. Returns the refusal number.
#[unsafe(no_mangle)]
pub extern "C" fn spritbobbin_multiplex(
    level: u64,
    earlier: u64,
    line: &mut [u8],
    notes: &[u8],
    buffer: &[u8],
    answer: &mut [u64; 5],
) -> u64
    ensures { MultiplexMet level earlier line.old notes.now buffer.now result line.new answer.new }
{
    let sent = multiplex::multiplex(level, earlier, line, notes, buffer);
    let (refusal, numbers) = sent_numbers(sent);
    *answer = numbers;
    refusal
}

// Alignment digits that differ and dissenting digits.
fn noted_numbers(alignment: usize, dissent: [usize; 4]) -> [u64; 5]
    ensures { result ≡ alignment ∷ get_or dissent 0 0 ∷ get_or dissent 1 0 ∷ get_or dissent 2 0 ∷ get_or dissent 3 0 ∷ [] }
{
    [
        alignment as u64,
        dissent[0] as u64,
        dissent[1] as u64,
        dissent[2] as u64,
        dissent[3] as u64,
    ]
}

fn errors_numbers(read: Result<Errors, Refusal>) -> (u64, [u64; 5])
    ensures { (result.0 ≡ (noting.numbers_of read).refusal) × (result.1 ≡ noted_answer (noting.numbers_of read)) }
{
    match read {
        Ok(errors) => (0, noted_numbers(errors.alignment, errors.dissent)),
        Err(refusal) => (u64::from(refusal), noted_numbers(0, [0; 4])),
    }
}

// Reads notes; answer: alignment digits that differ, dissenting digits of tributaries 1 to 4.
#[unsafe(no_mangle)]
pub extern "C" fn spritbobbin_read_notes(
    level: u64,
    line: &[u8],
    notes: &mut [u8],
    answer: &mut [u64; 5],
) -> u64
    ensures { ReadNotesMet level line.now notes.old result notes.new answer.new }
{
    let read = reading::read_notes(level, line, notes);
    let (refusal, numbers) = errors_numbers(read);
    *answer = numbers;
    refusal
}

// Extracts by notes and the vote before them; answer: four digit counts, named frame.
#[unsafe(no_mangle)]
pub extern "C" fn spritbobbin_extract(
    level: u64,
    earlier: u64,
    line: &[u8],
    notes: &[u8],
    buffer: &mut [u8],
    answer: &mut [u64; 5],
) -> u64
    ensures { ExtractMet level earlier line.now notes.now buffer.old result buffer.new answer.new }
{
    let taken = extraction::extract(level, earlier, line, notes, buffer);
    let (refusal, numbers) = sent_numbers(taken);
    *answer = numbers;
    refusal
}

// Makes a fresh state; one that is refused with 1 is all zero, and is written.
#[unsafe(no_mangle)]
pub extern "C" fn spritbobbin_receiver_fresh(
    level: u64,
    state: &mut [u64; 9],
    frame: &mut [u8; 366],
) -> u64
    ensures { FreshMet level result state.new frame.new }
{
    let made = receiver::fresh(level);
    let s = made.state;
    *state = numbers::state_numbers(s);
    let zeros = s.frame;
    *frame = zeros;
    made.refusal
}

// Feeds a piece; answer: digits taken, 1 if a frame is ready, 1 if the alarm stands at the end, words tested. A refused feed writes no state.
#[unsafe(no_mangle)]
pub extern "C" fn spritbobbin_receiver_feed(
    state: &mut [u64; 9],
    frame: &mut [u8; 366],
    piece: &[u8],
    first: u64,
    count: u64,
    answer: &mut [u64; 4],
) -> u64
    ensures { FeedMet state.old frame.old piece.now first count result state.new frame.new answer.new }
{
    let given = *state;
    let held = *frame;
    let s = numbers::state_from(given, held);
    let fed = numbers::fed_by(s, state[7], state[8], piece, first as usize, count as usize);
    *answer = numbers::fed_numbers(fed);
    if fed.refusal != 0 {
        return fed.refusal;
    }
    let next = fed.state;
    *state = numbers::state_numbers(next);
    let kept = next.frame;
    *frame = kept;
    fed.refusal
}

// The digit at a place of a line: 0 or 1, or 2 where the line has ended.
#[unsafe(no_mangle)]
pub extern "C" fn spritbobbin_line_digit(line: &[u8], place: u64) -> u64
    ensures { LineDigitMet line.now place result }
{
    line_reader::line_digit(line, place as usize)
}

fn written_numbers(written: Result<usize, Refusal>) -> (u64, [u64; 2])
    ensures { (result.0 ≡ (written_in written).refusal) × (result.1 ≡ written_answer (written_in written)) }
{
    match written {
        Ok(bytes) => (0, [bytes as u64, 0]),
        Err(refusal) => (u64::from(refusal), [0; 2]),
    }
}

// Writes a capture into a file; answer: bytes of the file, named byte (0). Where labelled is 0 there is no label.
#[unsafe(no_mangle)]
pub extern "C" fn spritbobbin_capture_write(
    level: u64,
    line: &[u8],
    label: &[u8],
    labelled: u64,
    file: &mut [u8],
    answer: &mut [u64; 2],
) -> u64
    ensures { CaptureWriteMet level line.now label.now labelled file.old result file.new answer.new }
{
    let written = captures::write(level, line, label, labelled != 0, file);
    let (refusal, numbers) = written_numbers(written);
    *answer = numbers;
    refusal
}

fn read_numbers(r: Reading) -> [u64; 7]
    ensures { result ≡ read_answer r }
{
    let line = r.line;
    let label = r.label;
    [
        r.level,
        line.start as u64,
        line.bytes as u64,
        digits::as_number(r.labelled),
        label.start as u64,
        label.bytes as u64,
        r.byte as u64,
    ]
}

// Reads a capture; answer: level, first byte of the line, its bytes, 1 if there is a label, first byte of the label, its bytes, named byte.
#[unsafe(no_mangle)]
pub extern "C" fn spritbobbin_capture_read(file: &[u8], answer: &mut [u64; 7]) -> u64
    ensures { CaptureReadMet file.now result answer.new }
{
    let reading = captures::read(file);
    *answer = read_numbers(reading);
    reading.refusal
}

fn built_numbers(built: Result<(), multiframe::Refused>) -> (u64, [u64; 1])
    ensures { (result.0 ≡ (building.numbers_of built).refusal) × (result.1 ≡ built_answer (building.numbers_of built)) }
{
    match built {
        Ok(()) => (0, [0]),
        Err(refused) => (u64::from(refused.refusal), [refused.channel as u64]),
    }
}

// Builds a multiframe of 2048 kbit/s from channels, signalling and spare digits; answer: named channel.
#[unsafe(no_mangle)]
pub extern "C" fn spritbobbin_multiframe_build(
    multiframe: &mut [u8],
    channels: &[u8],
    signalling: &[u8],
    spare: &[u8],
    answer: &mut [u64; 1],
) -> u64
    ensures { MultiframeBuildMet multiframe.old channels.now signalling.now spare.now result
        multiframe.new answer.new }
{
    let built = multiframe::build(multiframe, channels, signalling, spare);
    let (refusal, numbers) = built_numbers(built);
    *answer = numbers;
    refusal
}

// Taking apart answers nothing but whether it is refused: the refusal's number, or 0.
fn apart_number(apart: Result<(), multiframe::Refusal>) -> u64
    ensures { result ≡ building.refusal_in apart }
{
    match apart {
        Ok(()) => 0,
        Err(refusal) => u64::from(refusal),
    }
}

// Takes a multiframe apart into channels, signalling and spare digits.
#[unsafe(no_mangle)]
pub extern "C" fn spritbobbin_multiframe_apart(
    multiframe: &[u8],
    channels: &mut [u8],
    signalling: &mut [u8],
    spare: &mut [u8],
) -> u64
    ensures { MultiframeApartMet multiframe.now channels.old signalling.old spare.old result
        channels.new signalling.new spare.new }
{
    apart_number(multiframe::apart(multiframe, channels, signalling, spare))
}
