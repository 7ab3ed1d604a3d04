// The C face of repairing a worn line in place.
ghost use Rattle.std.specs.Prelude.{◌≡◌};
ghost use Rattle.repair.specs.Repair.{numbers_of};
ghost use Rattle.spritbobbin.specs.RepairFace.{repaired_answer, RepairFaceMet};

use refusal::Refusal;
use repair::Changes;

fn repaired_numbers(done: Result<Changes, Refusal>) -> (u64, [u64; 10])
    ensures { (result.0 ≡ (numbers_of done).refusal) × (result.1 ≡ repaired_answer (numbers_of done)) }
{
    match done {
        Ok(made) => {
            let c = made.control;
            let s = made.stuffing;
            (
                0,
                [
                    made.word as u64,
                    c[0] as u64,
                    c[1] as u64,
                    c[2] as u64,
                    c[3] as u64,
                    s[0] as u64,
                    s[1] as u64,
                    s[2] as u64,
                    s[3] as u64,
                    made.national as u64,
                ],
            )
        }
        Err(refusal) => (u64::from(refusal), [0; 10]),
    }
}

// Repairs the line after an earlier vote, its national digits too where `national` is not 0; answer: changed digits of the word, of the control groups of
// tributaries 1 to 4, stuffing digits of tributaries 1 to 4, and national digits. Returns the refusal number.
#[unsafe(no_mangle)]
pub extern "C" fn spritbobbin_repair(
    level: u64,
    earlier: u64,
    national: u64,
    line: &mut [u8],
    answer: &mut [u64; 10],
) -> u64
    ensures { RepairFaceMet level earlier national line.old result line.new answer.new }
{
    let done = repair::repair(level, earlier, national != 0, line);
    let (refusal, numbers) = repaired_numbers(done);
    *answer = numbers;
    refusal
}
