// The C face of the comparisons, of two captures, of two lines and of a stretch of them: the fifteen sums and the list pass as numbers.
ghost use Rattle.spritbobbin.specs.Comparing.{ComparisonMet, LineComparisonMet};
ghost use Rattle.spritbobbin.specs.Comparing.{StretchComparisonMet};

// Compares two captures; answer: file at fault, named byte, the fifteen sums, all differing digits, how many are listed; places: frame and place of
// each listed digit, zeros after them. A refused comparison leaves the places as they were.
#[unsafe(no_mangle)]
pub extern "C" fn spritbobbin_compare(
    one: &[u8],
    other: &[u8],
    answer: &mut [u64; 19],
    places: &mut [u64; 128],
) -> u64
    ensures { ComparisonMet one.now other.now places.old result answer.new places.new }
{
    spritbobbin::compare_face::spritbobbin_compare(one, other, answer, places)
}

// Compares two lines of a level; answer: the fifteen sums, all differing digits, how many are listed; places as of two captures.
#[unsafe(no_mangle)]
pub extern "C" fn spritbobbin_compare_lines(
    level: u64,
    one: &[u8],
    other: &[u8],
    answer: &mut [u64; 17],
    places: &mut [u64; 128],
) -> u64
    ensures { LineComparisonMet level one.now other.now places.old result answer.new places.new }
{
    spritbobbin::compare_face::spritbobbin_compare_lines(level, one, other, answer, places)
}

// Counts what differs among so many places of two lines from one on; answer: the fifteen sums, all differing digits.
#[unsafe(no_mangle)]
pub extern "C" fn spritbobbin_compare_stretch(
    level: u64,
    one: &[u8],
    other: &[u8],
    first: u64,
    count: u64,
    answer: &mut [u64; 16],
) -> u64
    ensures { StretchComparisonMet level one.now other.now first count result answer.new }
{
    spritbobbin::compare_face::spritbobbin_compare_stretch(level, one, other, first, count, answer)
}
