// The C face of swapping one tributary in place.
ghost use Rattle.std.specs.Prelude.{◌≡◌};
ghost use Rattle.swap.specs.Swap.{numbers_of};
ghost use Rattle.spritbobbin.specs.SwapFace.{swapped_answer, SwapFaceMet};

use refusal::Refusal;

fn swapped_numbers(done: Result<usize, Refusal>) -> (u64, [u64; 1])
    ensures { (result.0 ≡ (numbers_of done).refusal) × (result.1 ≡ swapped_answer (numbers_of done)) }
{
    match done {
        Ok(digits) => (0, [digits as u64]),
        Err(refusal) => (u64::from(refusal), [0]),
    }
}

// Swaps a tributary of the line, 1 to 4; answer: digits taken. Returns the refusal number.
#[unsafe(no_mangle)]
pub extern "C" fn spritbobbin_swap(
    level: u64,
    earlier: u64,
    tributary: u64,
    line: &mut [u8],
    notes: &[u8],
    buffer: &[u8],
    answer: &mut [u64; 1],
) -> u64
    ensures { SwapFaceMet level earlier tributary line.old notes.now buffer.now result line.new answer.new }
{
    let done = swap::swap(level, earlier, tributary, line, notes, buffer);
    let (refusal, numbers) = swapped_numbers(done);
    *answer = numbers;
    refusal
}
