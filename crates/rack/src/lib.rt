// A rack of lines: up to 64 receivers kept as records in one lent list. Three calls, kept thin: crate `records` has what they decide (`rule`) and
// what a receiver makes of one record (`record`), both without the list; the calls take a record out of the list, and put it back.
#![tactic(auto)]

ghost use Rattle.rack.specs.Rack.{FeedMet, ResetMet, AlignedMet};

use records::record::Record;
use records::{record, rule};

// Feeds a piece to line number `line`, from 0; answer: digits taken, 1 if a frame is ready, 1 if the alarm stands at the end, words tested.
pub fn feed(
    records: &mut [Record],
    line: u64,
    piece: &[u8],
    first: u64,
    count: u64,
    answer: &mut [u64; 4],
) -> u64
    ensures { FeedMet records.old line piece.now first count result records.new answer.new }
{
    let refusal = rule::list_refusal(records.len(), line);
    if refusal != 0 {
        return rule::refuse(refusal, answer);
    }
    let k = line as usize;
    let fed = record::feed_record(records[k], piece, first, count, answer);
    let no = fed.refusal;
    if no != 0 {
        return no;
    }
    records[k] = fed.kept;
    no
}

// Resets line number `line` to a fresh state of a level.
pub fn reset(records: &mut [Record], line: u64, level: u64) -> u64
    ensures { ResetMet records.old line level result records.new }
{
    let made = rule::made(records.len(), line, level);
    let refusal = made.refusal;
    if refusal != 0 {
        return refusal;
    }
    let at = line as usize;
    records[at] = made.kept;
    refusal
}

// Counts the lines in mode aligned; answer: how many.
pub fn aligned(records: &[Record], answer: &mut [u64; 1]) -> u64
    ensures { AlignedMet records.now result answer.new }
{
    let number = rule::counted(records.len());
    let mut n: u64 = 0;
    for record in &records[..number] {
        n = rule::count_on(n, record.mode);
    }
    rule::tell(records.len(), n, answer)
}
