// Extracting four tributaries from a line, by notes that are given and the vote before them: all four at once, each frame by its own note and the
// preceding one. Looks at no control digit.
// specs/Extract.antt says what the call answers and leaves.
#![tactic(auto)]

pub mod frames;

ghost use Rattle.std.specs.Prelude.{◌≡◌, ◌/◌, length};
ghost use Rattle.levels.specs.Table.{Shared};
ghost use Rattle.levels.specs.Sizes.{Accepted};
ghost use Rattle.levels.specs.Order.{counts_of};
ghost use Rattle.levels.specs.Faults.{answer_on, numbers_of};
ghost use Rattle.extraction.specs.Quarters.{quarters_from};
ghost use Rattle.extraction.specs.Extract.{buffer_on, ExtractMet};

use levels::faults;
use levels::faults::Refused;
use refusal::Refusal;
use table::Row;

// The four extractions: the frames hand out their digits, then each quarter is ended.
pub fn extract_all(
    row: Row,
    earlier: u64,
    line: &[u8],
    notes: &[u8],
    buffer: &mut [u8],
) -> [usize; 4]
    requires { Shared row × Accepted row (length line.now) (length notes.now) (length buffer.old) }
    ensures { (result ≡ counts_of row earlier notes.now (length notes.now))
        × (buffer.new ≡ quarters_from row earlier notes.now line.now (length buffer.old / 4)) }
{
    let q = buffer.len() / 4;
    let w = frames::extract_frames(row, earlier, line, notes, buffer, q);
    let mut counts = [0usize; 4];
    for j in 0..4 {
        let a = j * q;
        let e = a + q;
        counts[j] = frames::finish_quarter(&mut buffer[a..e], unweave::writer_of(w, j));
    }
    counts
}

// A level's row is known: the lengths, the earlier vote and the notes are judged, and the tributaries are extracted.
fn extract_on(
    row: Row,
    earlier: u64,
    line: &[u8],
    notes: &[u8],
    buffer: &mut [u8],
) -> Result<[usize; 4], Refused>
    requires { Shared row }
    ensures { (numbers_of result ≡ answer_on row earlier (length line.now) notes.now (length buffer.old))
        × (buffer.new ≡ buffer_on row earlier line.now notes.now buffer.old) }
{
    faults::fault_of(row, earlier, line.len(), notes, buffer.len())?;
    let counts = extract_all(row, earlier, line, notes, buffer);
    Ok(counts)
}

// Extracts the tributaries of the line into the quarters of the buffer, by the notes and the vote before them, and answers how many digits each has.
// Any level number, any vote, any lengths: see specs/Extract.antt.
pub fn extract(
    level: u64,
    earlier: u64,
    line: &[u8],
    notes: &[u8],
    buffer: &mut [u8],
) -> Result<[usize; 4], Refused>
    ensures { ExtractMet level earlier line.now notes.now buffer.old (numbers_of result) buffer.new }
{
    let found = table::level_of(level);
    match found {
        Some(row) => extract_on(row, earlier, line, notes, buffer),
        None => Err(Refused::from(Refusal::Level)),
    }
}
