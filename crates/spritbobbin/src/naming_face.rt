// The C face of what a place is, of a frame and of a multiframe.
ghost use Rattle.std.specs.Prelude.{◌≡◌};
ghost use Rattle.naming.specs.Frames as frames;
ghost use Rattle.naming.specs.Multiframes as multiframes;
ghost use Rattle.spritbobbin.specs.NamingFace.{place_answer, multiframe_answer, PlaceFaceMet, MultiframePlaceFaceMet};

use naming::PlaceName;
use naming::multiframes::MultiframePlaceName;
use refusal::Refusal;

// An answer as C is given it: the refusal's number, and the numbers of the array that C lends for the rest.
fn place_numbers(found: Result<PlaceName, Refusal>) -> (u64, [u64; 2])
    ensures { (result.0 ≡ (frames.numbers_of found).refusal) × (result.1 ≡ place_answer (frames.numbers_of found)) }
{
    match found {
        Ok(p) => (0, [p.kind, p.tributary]),
        Err(refusal) => (u64::from(refusal), [0; 2]),
    }
}

// What a place of a frame is; answer: the number of its kind, its tributary or 0. Returns the refusal number.
#[unsafe(no_mangle)]
pub extern "C" fn spritbobbin_place(level: u64, place: u64, answer: &mut [u64; 2]) -> u64
    ensures { PlaceFaceMet level place result answer.new }
{
    let found = naming::place(level, place as usize);
    let (refusal, numbers) = place_numbers(found);
    *answer = numbers;
    refusal
}

fn multiframe_numbers(found: Result<MultiframePlaceName, Refusal>) -> (u64, [u64; 2])
    ensures { (result.0 ≡ (multiframes.numbers_of found).refusal)
        × (result.1 ≡ multiframe_answer (multiframes.numbers_of found)) }
{
    match found {
        Ok(p) => (0, [p.kind, p.number]),
        Err(refusal) => (u64::from(refusal), [0; 2]),
    }
}

// What a place of a multiframe is; answer: the number of its kind, and the digit fixed there or the channel, or 0. Returns the refusal number.
#[unsafe(no_mangle)]
pub extern "C" fn spritbobbin_multiframe_place(place: u64, answer: &mut [u64; 2]) -> u64
    ensures { MultiframePlaceFaceMet place result answer.new }
{
    let found = naming::multiframes::multiframe_place(place as usize);
    let (refusal, numbers) = multiframe_numbers(found);
    *answer = numbers;
    refusal
}
