// The archive for C, libspritbobbin.a: each call of the library, by its name and with its clauses. A crate that others stand on makes no archive, so this one stands
// on the library and hands each call on to it. A slice passes as a pointer and then a length, a fixed array as a pointer. include/spritbobbin.h declares these
// functions for C; nothing checks that header against this crate but tests/abi.
#![tactic(auto)]

pub mod begins_face;
pub mod compare_face;
pub mod copy_face;
pub mod finder_face;
pub mod judge_face;
pub mod late_face;
pub mod naming_face;
pub mod plain_face;
pub mod rack_face;
pub mod repair_face;
pub mod swap_face;
pub mod verdict_face;
pub mod version_face;

ghost use Rattle.spritbobbin.specs.Face.{CaptureWriteMet, CaptureReadMet};
ghost use Rattle.spritbobbin.specs.Face.{MultiframeBuildMet, MultiframeApartMet};
ghost use Rattle.spritbobbin.specs.Face.{MultiplexMet, ReadNotesMet, ExtractMet, FreshMet, FeedMet, LineDigitMet};

// Multiplexes after an earlier vote; answer: four digit counts, named frame. Returns the refusal number.
#[unsafe(no_mangle)]
pub extern "C" fn spritbobbin_multiplex(
    level: u64,
    earlier: u64,
    line: &mut [u8],
    notes: &[u8],
    buffer: &[u8],
    answer: &mut [u64; 5],
) -> u64
    ensures { MultiplexMet level earlier line.old notes.now buffer.now result line.new answer.new }
{
    spritbobbin::spritbobbin_multiplex(level, earlier, line, notes, buffer, answer)
}

// Reads notes; answer: alignment digits that differ, dissenting digits of tributaries 1 to 4.
#[unsafe(no_mangle)]
pub extern "C" fn spritbobbin_read_notes(
    level: u64,
    line: &[u8],
    notes: &mut [u8],
    answer: &mut [u64; 5],
) -> u64
    ensures { ReadNotesMet level line.now notes.old result notes.new answer.new }
{
    spritbobbin::spritbobbin_read_notes(level, line, notes, answer)
}

// Extracts by notes and the vote before them; answer: four digit counts, named frame.
#[unsafe(no_mangle)]
pub extern "C" fn spritbobbin_extract(
    level: u64,
    earlier: u64,
    line: &[u8],
    notes: &[u8],
    buffer: &mut [u8],
    answer: &mut [u64; 5],
) -> u64
    ensures { ExtractMet level earlier line.now notes.now buffer.old result buffer.new answer.new }
{
    spritbobbin::spritbobbin_extract(level, earlier, line, notes, buffer, answer)
}

// Makes a fresh state; one that is refused with 1 is all zero, and is written.
#[unsafe(no_mangle)]
pub extern "C" fn spritbobbin_receiver_fresh(
    level: u64,
    state: &mut [u64; 9],
    frame: &mut [u8; 366],
) -> u64
    ensures { FreshMet level result state.new frame.new }
{
    spritbobbin::spritbobbin_receiver_fresh(level, state, frame)
}

// Feeds a piece; answer: digits taken, 1 if a frame is ready, 1 if the alarm stands at the end, words tested. A refused feed writes no state.
#[unsafe(no_mangle)]
pub extern "C" fn spritbobbin_receiver_feed(
    state: &mut [u64; 9],
    frame: &mut [u8; 366],
    piece: &[u8],
    first: u64,
    count: u64,
    answer: &mut [u64; 4],
) -> u64
    ensures { FeedMet state.old frame.old piece.now first count result state.new frame.new answer.new }
{
    spritbobbin::spritbobbin_receiver_feed(state, frame, piece, first, count, answer)
}

// The digit at a place of a line: 0 or 1, or 2 where the line has ended.
#[unsafe(no_mangle)]
pub extern "C" fn spritbobbin_line_digit(line: &[u8], place: u64) -> u64
    ensures { LineDigitMet line.now place result }
{
    spritbobbin::spritbobbin_line_digit(line, place)
}

// Writes a capture into a file; answer: bytes of the file, named byte (0). Where labelled is 0 there is no label.
#[unsafe(no_mangle)]
pub extern "C" fn spritbobbin_capture_write(
    level: u64,
    line: &[u8],
    label: &[u8],
    labelled: u64,
    file: &mut [u8],
    answer: &mut [u64; 2],
) -> u64
    ensures { CaptureWriteMet level line.now label.now labelled file.old result file.new answer.new }
{
    spritbobbin::spritbobbin_capture_write(level, line, label, labelled, file, answer)
}

// Reads a capture; answer: level, first byte of the line, its bytes, 1 if there is a label, first byte of the label, its bytes, named byte.
#[unsafe(no_mangle)]
pub extern "C" fn spritbobbin_capture_read(file: &[u8], answer: &mut [u64; 7]) -> u64
    ensures { CaptureReadMet file.now result answer.new }
{
    spritbobbin::spritbobbin_capture_read(file, answer)
}

// Builds a multiframe of 2048 kbit/s from channels, signalling and spare digits; answer: named channel.
#[unsafe(no_mangle)]
pub extern "C" fn spritbobbin_multiframe_build(
    multiframe: &mut [u8],
    channels: &[u8],
    signalling: &[u8],
    spare: &[u8],
    answer: &mut [u64; 1],
) -> u64
    ensures { MultiframeBuildMet multiframe.old channels.now signalling.now spare.now result
        multiframe.new answer.new }
{
    spritbobbin::spritbobbin_multiframe_build(multiframe, channels, signalling, spare, answer)
}

// Takes a multiframe apart into channels, signalling and spare digits.
#[unsafe(no_mangle)]
pub extern "C" fn spritbobbin_multiframe_apart(
    multiframe: &[u8],
    channels: &mut [u8],
    signalling: &mut [u8],
    spare: &mut [u8],
) -> u64
    ensures { MultiframeApartMet multiframe.now channels.old signalling.old spare.old result
        channels.new signalling.new spare.new }
{
    spritbobbin::spritbobbin_multiframe_apart(multiframe, channels, signalling, spare)
}
