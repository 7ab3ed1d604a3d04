// The C face of the finder of 2048 kbit/s frames: its state passes as four numbers.
ghost use Rattle.spritbobbin.specs.Finding.{FinderFreshMet, FinderFeedMet};

// Makes a fresh state of the finder; never refused.
#[unsafe(no_mangle)]
pub extern "C" fn spritbobbin_finder_fresh(state: &mut [u64; 4]) -> u64
    ensures { FinderFreshMet result state.new }
{
    spritbobbin::finder_face::spritbobbin_finder_fresh(state)
}

// Feeds a piece; answer: digits taken, 1 if aligned at their end. A refused feed writes no state.
#[unsafe(no_mangle)]
pub extern "C" fn spritbobbin_finder_feed(
    state: &mut [u64; 4],
    piece: &[u8],
    first: u64,
    count: u64,
    answer: &mut [u64; 2],
) -> u64
    ensures { FinderFeedMet state.old piece.now first count result state.new answer.new }
{
    spritbobbin::finder_face::spritbobbin_finder_feed(state, piece, first, count, answer)
}
