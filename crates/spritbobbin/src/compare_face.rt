// The C face of the comparisons, of two captures, of two lines and of a stretch of them: the fifteen sums and the list pass as numbers.
ghost use Rattle.std.specs.Prelude.{◌≡◌};
ghost use Rattle.spritbobbin.specs.Comparing.{compared_answer, ComparisonMet, lines_answer, LineComparisonMet};
ghost use Rattle.spritbobbin.specs.Comparing.{stretch_answer, StretchComparisonMet};

use compare::lines;
use compare::lines::Stretch;
use differing::Compared;

fn compared_numbers(c: Compared) -> [u64; 19]
    ensures { result ≡ compared_answer c }
{
    let s = c.sums;
    [
        c.file,
        c.byte as u64,
        s[0] as u64,
        s[1] as u64,
        s[2] as u64,
        s[3] as u64,
        s[4] as u64,
        s[5] as u64,
        s[6] as u64,
        s[7] as u64,
        s[8] as u64,
        s[9] as u64,
        s[10] as u64,
        s[11] as u64,
        s[12] as u64,
        s[13] as u64,
        s[14] as u64,
        c.all as u64,
        c.listed as u64,
    ]
}

// Compares two captures; answer: file at fault, named byte, the fifteen sums, all differing digits, how many are listed; places: frame and place of
// each listed digit, zeros after them. A refused comparison leaves the places as they were.
#[unsafe(no_mangle)]
pub extern "C" fn spritbobbin_compare(
    one: &[u8],
    other: &[u8],
    answer: &mut [u64; 19],
    places: &mut [u64; 128],
) -> u64
    ensures { ComparisonMet one.now other.now places.old result answer.new places.new }
{
    let compared = compare::compare(one, other, places);
    *answer = compared_numbers(compared);
    compared.refusal
}

fn lines_numbers(found: Compared) -> [u64; 17]
    ensures { result ≡ lines_answer found }
{
    let n = found.sums;
    [
        n[0] as u64,
        n[1] as u64,
        n[2] as u64,
        n[3] as u64,
        n[4] as u64,
        n[5] as u64,
        n[6] as u64,
        n[7] as u64,
        n[8] as u64,
        n[9] as u64,
        n[10] as u64,
        n[11] as u64,
        n[12] as u64,
        n[13] as u64,
        n[14] as u64,
        found.all as u64,
        found.listed as u64,
    ]
}

// Compares two lines of a level; answer: the fifteen sums, all differing digits, how many are listed; places as of two captures.
#[unsafe(no_mangle)]
pub extern "C" fn spritbobbin_compare_lines(
    level: u64,
    one: &[u8],
    other: &[u8],
    answer: &mut [u64; 17],
    places: &mut [u64; 128],
) -> u64
    ensures { LineComparisonMet level one.now other.now places.old result answer.new places.new }
{
    let compared = lines::compare_lines(level, one, other, places);
    *answer = lines_numbers(compared);
    compared.refusal
}

fn stretch_numbers(t: Stretch) -> [u64; 16]
    ensures { result ≡ stretch_answer t }
{
    let m = t.sums;
    [
        m[0] as u64,
        m[1] as u64,
        m[2] as u64,
        m[3] as u64,
        m[4] as u64,
        m[5] as u64,
        m[6] as u64,
        m[7] as u64,
        m[8] as u64,
        m[9] as u64,
        m[10] as u64,
        m[11] as u64,
        m[12] as u64,
        m[13] as u64,
        m[14] as u64,
        t.all as u64,
    ]
}

// Counts what differs among so many places of two lines from one on; answer: the fifteen sums, all differing digits.
#[unsafe(no_mangle)]
pub extern "C" fn spritbobbin_compare_stretch(
    level: u64,
    one: &[u8],
    other: &[u8],
    first: u64,
    count: u64,
    answer: &mut [u64; 16],
) -> u64
    ensures { StretchComparisonMet level one.now other.now first count result answer.new }
{
    let counted = lines::compare_stretch(level, one, other, first as usize, count as usize);
    *answer = stretch_numbers(counted);
    counted.refusal
}
