// The C face of the rack of lines: the rack's own calls, whose records C lends as a list.
ghost use Rattle.rack.specs.Rack.{FeedMet, ResetMet, AlignedMet};

use records::record::Record;

// Feeds a piece to line number `line`, from 0; answer: digits taken, 1 if a frame is ready, 1 if the alarm stands at the end, words tested.
#[unsafe(no_mangle)]
pub extern "C" fn spritbobbin_rack_feed(
    records: &mut [Record],
    line: u64,
    piece: &[u8],
    first: u64,
    count: u64,
    answer: &mut [u64; 4],
) -> u64
    ensures { FeedMet records.old line piece.now first count result records.new answer.new }
{
    spritbobbin::rack_face::spritbobbin_rack_feed(records, line, piece, first, count, answer)
}

// Resets line number `line` to a fresh state of a level.
#[unsafe(no_mangle)]
pub extern "C" fn spritbobbin_rack_reset(records: &mut [Record], line: u64, level: u64) -> u64
    ensures { ResetMet records.old line level result records.new }
{
    spritbobbin::rack_face::spritbobbin_rack_reset(records, line, level)
}

// Counts the lines in mode aligned; answer: how many.
#[unsafe(no_mangle)]
pub extern "C" fn spritbobbin_rack_aligned(records: &[Record], answer: &mut [u64; 1]) -> u64
    ensures { AlignedMet records.now result answer.new }
{
    spritbobbin::rack_face::spritbobbin_rack_aligned(records, answer)
}
