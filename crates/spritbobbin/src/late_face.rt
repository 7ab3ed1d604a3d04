// The C face of the late multiplexer: the arguments and the answer of multiplexing.
ghost use Rattle.spritbobbin.specs.LateFace.{LateFaceMet};

// Makes the line of a multiplexer that acts a frame late; answer: four digit counts, named frame. Returns the refusal number.
#[unsafe(no_mangle)]
pub extern "C" fn spritbobbin_late_multiplex(
    level: u64,
    earlier: u64,
    line: &mut [u8],
    notes: &[u8],
    buffer: &[u8],
    answer: &mut [u64; 5],
) -> u64
    ensures { LateFaceMet level earlier line.old notes.now buffer.now result line.new answer.new }
{
    let sent = late::late_multiplex(level, earlier, line, notes, buffer);
    let (refusal, numbers) = crate::sent_numbers(sent);
    *answer = numbers;
    refusal
}
