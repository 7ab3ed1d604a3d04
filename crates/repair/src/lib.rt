// Repairing a worn line in place: alignment digits to the word, control groups to their majority, stuffing digits to 1, and if asked national digits to 1.
// Frame after frame: the votes of a frame are read before anything of it is written, and the note of the frame before it is carried along. Only the heads
// of sets are walked, for behind them there are tributary digits alone. specs/Repair.antt says what the call answers and leaves.
#![tactic(auto)]

ghost use Rattle.std.specs.Prelude.{◌≡◌, cond, ◌+◌, ◌*◌, ◌<◌, length, replicate};
ghost use Rattle.levels.specs.declared.places.Kind.TheVariants.{Word, Justification};
ghost use Rattle.levels.specs.Table.{Shared};
ghost use Rattle.levels.specs.Order.{stuffed, acts_by};
ghost use Rattle.repair.specs.Repair.{repaired_by, repaired_service, numbers_of, repaired_on, line_on, RepairMet};
ghost use Rattle.repair.specs.Mending.{place_of, Begun, Onward, Whole, Mended};

use levels::places::{At, FramePlace, Kind, ServiceDigit, Sign};
use levels::{faults, lent, order, places, sent, sizes};
use refusal::Refusal;
use table::Row;

// How many digits a repair changed: of the word, of each tributary's control and stuffing digits, and national digits.
#[derive(Clone, Copy, Debug, PartialEq, Eq, Hash)]
pub struct Changes {
    pub word: usize,
    pub control: [usize; 4],
    pub stuffing: [usize; 4],
    pub national: usize,
}

// What a frame is repaired by: the note of the frame before it, or the earlier vote, its own, and whether national digits are set to 1.
#[derive(Clone, Copy)]
pub struct Rule {
    pub preceding: u64,
    pub note: u8,
    pub national: bool,
}

// A national digit: 1 if asked, else as it came.
fn national_digit(national: bool, came: u8) -> u8
    requires { came < 2 }
    ensures { (result ≡ cond national 1 came) × (result < 2) }
{
    if national { 1 } else { came }
}

// A service digit: every other than a national one stays.
fn service_digit(national: bool, s: ServiceDigit, came: u8) -> u8
    requires { came < 2 }
    ensures { (result ≡ repaired_service national came s) × (result < 2) }
{
    match s {
        ServiceDigit::FirstNational | ServiceDigit::SecondNational | ServiceDigit::ThirdNational =>
            national_digit(national, came),
        ServiceDigit::RemoteAlarm | ServiceDigit::Fixed => came,
    }
}

// A justification place of tributary j (from 0): as it came where it carries a digit, else 1.
fn justification_digit(row: Row, sign: Sign, rule: Rule, j: usize, came: u8) -> u8
    requires { (j < 4) × (came < 2) }
    ensures { (result
        ≡ repaired_by row rule.national (stuffed rule.note j) (acts_by row rule.preceding rule.note j) 0 came
        (Justification sign))
        × (result < 2) }
{
    let action = order::action_of(row, rule.preceding, rule.note, j);
    let carries = order::justification_carries(sign, action);
    if carries { came } else { 1 }
}

// What place r of a set becomes, by its kind: j is its tributary (from 0).
fn repaired_digit(row: Row, kind: Kind, rule: Rule, j: usize, r: usize, came: u8) -> u8
    requires { Shared row × (j < 4) × (kind ≡ Word → r < row.len) × (came < 2) }
    ensures { (result ≡ repaired_by row rule.national (stuffed rule.note j) (acts_by row rule.preceding rule.note j) r came kind)
        × (result < 2) }
{
    match kind {
        Kind::Word => sent::word_digit(row, r),
        Kind::Service(s) => service_digit(rule.national, s, came),
        Kind::Control => digits::digit_of(order::is_stuffed(rule.note, j)),
        Kind::Justification(sign) => justification_digit(row, sign, rule, j, came),
        Kind::Tributary => came,
    }
}

// One place of a set's head: where it becomes another digit, that is written, and the place counted.
fn repair_place(row: Row, line: &mut [u8], at: At, rule: Rule, sums: &mut [usize; 15])
    requires { Begun row rule.national at.frame rule.preceding rule.note (place_of row at) line.old sums.old
        × (at.set < row.sets)
        × (at.place < row.set) }
    ensures { Onward row rule.national at.frame rule.preceding rule.note (place_of row at) (place_of row at + 1) line.old sums.old
        line.new sums.new }
{
    let p = at.frame * row.digits + (at.set * row.set + at.place);
    let came = lent::line_digit(line, FramePlace(p));
    let kind = places::kind_of(row, at);
    let d = repaired_digit(
        row,
        kind,
        rule,
        places::tributary_at(FramePlace(p)),
        at.place,
        came,
    );
    if d != came {
        lent::put_line_digit(line, FramePlace(p), d);
        tally::count_at(row, FramePlace(p), sums);
    }
}

// Set s of frame f: the places of its head. Behind it nothing is to be repaired.
fn repair_set(row: Row, line: &mut [u8], f: usize, s: usize, rule: Rule, sums: &mut [usize; 15])
    requires { Begun row rule.national f rule.preceding rule.note (f * row.digits + s * row.set) line.old sums.old
        × (s < row.sets) }
    ensures { Onward row rule.national f rule.preceding rule.note (f * row.digits + s * row.set) (f * row.digits + (s + 1) * row.set)
        line.old sums.old line.new sums.new }
{
    let end = places::head_end(row, s);
    for r in 0..end {
        let at = At {
            frame: f,
            set: s,
            place: r,
        };
        repair_place(row, line, at, rule, sums);
    }
}

// Frame f, set after set.
fn repair_frame(row: Row, line: &mut [u8], f: usize, rule: Rule, sums: &mut [usize; 15])
    requires { Begun row rule.national f rule.preceding rule.note (f * row.digits) line.old sums.old }
    ensures { Onward row rule.national f rule.preceding rule.note (f * row.digits) ((f + 1) * row.digits) line.old sums.old
        line.new sums.new }
{
    for s in 0..row.sets {
        repair_set(row, line, f, s, rule, sums);
    }
}

// Every frame of a line of whole frames. Its note is read before it is repaired.
fn repair_frames(row: Row, earlier: u64, national: bool, line: &mut [u8], sums: &mut [usize; 15])
    requires { Whole row line.old × (sums.old ≡ replicate 15 0) }
    ensures { Mended row earlier national line.old (8 * length line.old) line.new sums.new }
{
    let frames = line.len() / row.bytes;
    let mut preceding = earlier;
    for f in 0..frames {
        let read = reading::read_note(row, line, f);
        let rule = Rule {
            preceding,
            note: read.note,
            national,
        };
        repair_frame(row, line, f, rule, sums);
        preceding = read.note as u64;
    }
}

// A level's row is known: the rest is judged, and the line is repaired.
fn repair_on(row: Row, earlier: u64, national: bool, line: &mut [u8]) -> Result<Changes, Refusal>
    requires { Shared row }
    ensures { (numbers_of result ≡ repaired_on row earlier national line.old) × (line.new ≡ line_on row earlier national line.old) }
{
    if sizes::bad_line(row, line.len()) {
        return Err(Refusal::Line);
    }
    if faults::bad_earlier(row, earlier) {
        return Err(Refusal::NoteBits);
    }
    let mut sums = [0usize; 15];
    repair_frames(row, earlier, national, line, &mut sums);
    Ok(Changes {
        word: sums[0],
        control: [sums[3], sums[6], sums[9], sums[12]],
        stuffing: [sums[4], sums[7], sums[10], sums[13]],
        national: sums[2],
    })
}

// Repairs the line, with the vote before frame 0; `national` sets national digits to 1 too. Answers what it changed. Any level number, any length: see
// specs/Repair.antt.
pub fn repair(level: u64, earlier: u64, national: bool, line: &mut [u8]) -> Result<Changes, Refusal>
    ensures { RepairMet level earlier national line.old (numbers_of result) line.new }
{
    let found = table::level_of(level);
    match found {
        Some(row) => repair_on(row, earlier, national, line),
        None => Err(Refusal::Level),
    }
}
