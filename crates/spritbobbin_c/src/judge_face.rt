// The C face of the verdict on a line: the five numbers of each tributary pass one after the other.
ghost use Rattle.spritbobbin.specs.JudgeFace.{JudgeFaceMet};

// Judges the line after an earlier vote; answer, for each tributary: readings that fit (1 own, 2 before, 4 after, added up), wrong digits by its own frame, by
// the frame before, by the frame after, frames whose decision differs from the frame before. Returns the refusal number.
#[unsafe(no_mangle)]
pub extern "C" fn spritbobbin_judge(
    level: u64,
    earlier: u64,
    line: &[u8],
    pattern: u64,
    buffer: &[u8],
    answer: &mut [u64; 20],
) -> u64
    ensures { JudgeFaceMet level earlier line.now pattern buffer.now result answer.new }
{
    spritbobbin::judge_face::spritbobbin_judge(level, earlier, line, pattern, buffer, answer)
}
