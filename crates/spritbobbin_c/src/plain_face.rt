// The C face of the plain engine: the arguments and the answers of the quick one's calls.
ghost use Rattle.spritbobbin.specs.PlainFace.{PlainMultiplexMet, PlainReadNotesMet, PlainExtractMet};

// Multiplexes by the plain engine; answer: four digit counts, named frame. Returns the refusal number.
#[unsafe(no_mangle)]
pub extern "C" fn spritbobbin_plain_multiplex(
    level: u64,
    earlier: u64,
    line: &mut [u8],
    notes: &[u8],
    buffer: &[u8],
    answer: &mut [u64; 5],
) -> u64
    ensures { PlainMultiplexMet level earlier line.old notes.now buffer.now result line.new answer.new }
{
    spritbobbin::plain_face::spritbobbin_plain_multiplex(
        level, earlier, line, notes, buffer, answer,
    )
}

// Reads the notes by the plain engine; answer: alignment digits that differ, dissenting digits of tributaries 1 to 4.
#[unsafe(no_mangle)]
pub extern "C" fn spritbobbin_plain_read_notes(
    level: u64,
    line: &[u8],
    notes: &mut [u8],
    answer: &mut [u64; 5],
) -> u64
    ensures { PlainReadNotesMet level line.now notes.old result notes.new answer.new }
{
    spritbobbin::plain_face::spritbobbin_plain_read_notes(level, line, notes, answer)
}

// Extracts by the plain engine; answer: four digit counts, named frame.
#[unsafe(no_mangle)]
pub extern "C" fn spritbobbin_plain_extract(
    level: u64,
    earlier: u64,
    line: &[u8],
    notes: &[u8],
    buffer: &mut [u8],
    answer: &mut [u64; 5],
) -> u64
    ensures { PlainExtractMet level earlier line.now notes.now buffer.old result buffer.new answer.new }
{
    spritbobbin::plain_face::spritbobbin_plain_extract(level, earlier, line, notes, buffer, answer)
}
