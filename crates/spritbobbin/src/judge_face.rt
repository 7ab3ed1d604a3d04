// The C face of the verdict on a line: the five numbers of each tributary pass one after the other.
ghost use Rattle.std.specs.Prelude.{◌≡◌};
ghost use Rattle.judge.specs.Verdict.{accepted, numbers_of};
ghost use Rattle.spritbobbin.specs.JudgeFace.{judged_answer, JudgeFaceMet};

use judge::Judgement;
use refusal::Refusal;

fn four_by_five(r: Judgement) -> [u64; 20]
    ensures { result ≡ judged_answer (accepted r) }
{
    let f = r.fits;
    let o = r.own;
    let b = r.before;
    let a = r.after;
    let c = r.changes;
    [
        f[0] as u64,
        o[0] as u64,
        b[0] as u64,
        a[0] as u64,
        c[0] as u64,
        f[1] as u64,
        o[1] as u64,
        b[1] as u64,
        a[1] as u64,
        c[1] as u64,
        f[2] as u64,
        o[2] as u64,
        b[2] as u64,
        a[2] as u64,
        c[2] as u64,
        f[3] as u64,
        o[3] as u64,
        b[3] as u64,
        a[3] as u64,
        c[3] as u64,
    ]
}

// An answer as C is given it: the refusal's number, and the numbers of the array that C lends for the rest.
fn judged_numbers(found: Result<Judgement, Refusal>) -> (u64, [u64; 20])
    ensures { (result.0 ≡ (numbers_of found).refusal) × (result.1 ≡ judged_answer (numbers_of found)) }
{
    match found {
        Ok(judgement) => (0, four_by_five(judgement)),
        Err(refusal) => (u64::from(refusal), [0; 20]),
    }
}

// Judges the line after an earlier vote; answer, for each tributary: readings that fit (1 own, 2 before, 4 after, added up), wrong digits by its own frame, by
// the frame before, by the frame after, frames whose decision differs from the frame before. Returns the refusal number.
#[unsafe(no_mangle)]
pub extern "C" fn spritbobbin_judge(
    level: u64,
    earlier: u64,
    line: &[u8],
    pattern: u64,
    buffer: &[u8],
    answer: &mut [u64; 20],
) -> u64
    ensures { JudgeFaceMet level earlier line.now pattern buffer.now result answer.new }
{
    let found = judge::judge(level, earlier, line, pattern, buffer);
    let (refusal, numbers) = judged_numbers(found);
    *answer = numbers;
    refusal
}
