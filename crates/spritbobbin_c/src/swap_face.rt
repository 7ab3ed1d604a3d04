// The C face of swapping one tributary in place.
ghost use Rattle.spritbobbin.specs.SwapFace.{SwapFaceMet};

// Swaps a tributary of the line, 1 to 4; answer: digits taken. Returns the refusal number.
#[unsafe(no_mangle)]
pub extern "C" fn spritbobbin_swap(
    level: u64,
    earlier: u64,
    tributary: u64,
    line: &mut [u8],
    notes: &[u8],
    buffer: &[u8],
    answer: &mut [u64; 1],
) -> u64
    ensures { SwapFaceMet level earlier tributary line.old notes.now buffer.now result line.new answer.new }
{
    spritbobbin::swap_face::spritbobbin_swap(level, earlier, tributary, line, notes, buffer, answer)
}
