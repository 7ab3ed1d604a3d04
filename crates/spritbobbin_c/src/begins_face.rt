// The C face of where a recording begins in what was sent, and of where a multiframe begins.
ghost use Rattle.spritbobbin.specs.BeginsFace.{BeginsFaceMet, StartFaceMet};

// Where the first so many digits of `read` differ least from those sent; answer: the number, and how many differ. Returns the refusal number.
#[unsafe(no_mangle)]
pub extern "C" fn spritbobbin_begins(
    read: &[u8],
    digits: u64,
    sent: &[u8],
    first: u64,
    count: u64,
    answer: &mut [u64; 2],
) -> u64
    ensures { BeginsFaceMet read.now digits sent.now first count result answer.new }
{
    spritbobbin::begins_face::spritbobbin_begins(read, digits, sent, first, count, answer)
}

// Which of sixteen frames begins the multiframe; answer: the frame, or 16. Returns the refusal number.
#[unsafe(no_mangle)]
pub extern "C" fn spritbobbin_multiframe_start(frames: &[u8], answer: &mut [u64; 1]) -> u64
    ensures { StartFaceMet frames.now result answer.new }
{
    spritbobbin::begins_face::spritbobbin_multiframe_start(frames, answer)
}
