// The C face of where a recording begins in what was sent, and of where a multiframe begins.
ghost use Rattle.std.specs.Prelude.{◌≡◌};
ghost use Rattle.begins.specs.Begins.{numbers_of};
ghost use Rattle.multiframe_start.specs.Start as starting;
ghost use Rattle.spritbobbin.specs.BeginsFace.{begun_answer, start_answer, BeginsFaceMet, StartFaceMet};

use begins::Candidate;
use refusal::Refusal;

// An answer as C is given it: the refusal's number, and the numbers of the array that C lends for the rest.
fn begun_numbers(found: Result<Candidate, Refusal>) -> (u64, [u64; 2])
    ensures { (result.0 ≡ (numbers_of found).refusal) × (result.1 ≡ begun_answer (numbers_of found)) }
{
    match found {
        Ok(b) => (0, [b.at as u64, b.differing as u64]),
        Err(refusal) => (u64::from(refusal), [0; 2]),
    }
}

// Where the first so many digits of `read` differ least from those sent; answer: the number, and how many differ. Returns the refusal number.
#[unsafe(no_mangle)]
pub extern "C" fn spritbobbin_begins(
    read: &[u8],
    digits: u64,
    sent: &[u8],
    first: u64,
    count: u64,
    answer: &mut [u64; 2],
) -> u64
    ensures { BeginsFaceMet read.now digits sent.now first count result answer.new }
{
    let found = begins::begins(read, digits as usize, sent, first as usize, count as usize);
    let (refusal, numbers) = begun_numbers(found);
    *answer = numbers;
    refusal
}

fn start_numbers(found: Result<Option<usize>, Refusal>) -> (u64, [u64; 1])
    ensures { (result.0 ≡ (starting.numbers_of found).refusal) × (result.1 ≡ start_answer (starting.numbers_of found)) }
{
    match found {
        Ok(start) => (0, [start.unwrap_or(16) as u64]),
        Err(refusal) => (u64::from(refusal), [0]),
    }
}

// Which of sixteen frames begins the multiframe; answer: the frame, or 16. Returns the refusal number.
#[unsafe(no_mangle)]
pub extern "C" fn spritbobbin_multiframe_start(frames: &[u8], answer: &mut [u64; 1]) -> u64
    ensures { StartFaceMet frames.now result answer.new }
{
    let found = multiframe_start::multiframe_start(frames);
    let (refusal, numbers) = start_numbers(found);
    *answer = numbers;
    refusal
}
