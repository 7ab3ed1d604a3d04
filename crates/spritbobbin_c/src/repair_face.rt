// The C face of repairing a worn line in place.
ghost use Rattle.spritbobbin.specs.RepairFace.{RepairFaceMet};

// Repairs the line after an earlier vote, its national digits too where `national` is not 0; answer: changed digits of the word, of the control groups of
// tributaries 1 to 4, stuffing digits of tributaries 1 to 4, and national digits. Returns the refusal number.
#[unsafe(no_mangle)]
pub extern "C" fn spritbobbin_repair(
    level: u64,
    earlier: u64,
    national: u64,
    line: &mut [u8],
    answer: &mut [u64; 10],
) -> u64
    ensures { RepairFaceMet level earlier national line.old result line.new answer.new }
{
    spritbobbin::repair_face::spritbobbin_repair(level, earlier, national, line, answer)
}
