// A receiver kept as a record: nine numbers and the frame in hand, laid out as C lays them out, so that a list of them can be lent. Beside it the
// functions of a receiver on one record, by value: a record is taken out of its list, these are called, and it is put back.
ghost use Rattle.std.specs.Prelude.{◌≡◌};
ghost use Rattle.receiver.specs.Numbers.{fed_answer};
ghost use Rattle.records.specs.Record.{state_from, record_of, fed_record, kept_after, is_aligned};

use pieces::alarm::Stretch;
use receiver::{Fed, State, numbers};

// The state's numbers in the order in which the C face has them; the mode is 0 hunting, 1 one found, 2 two found, 3 + m aligned with m missed.
#[repr(C)]
#[derive(Clone, Copy)]
pub struct Record {
    pub level: u64,
    pub window: u64,
    pub seen: u64,
    pub mode: u64,
    pub place: u64,
    pub digits: u64,
    pub zeros: u64,
    pub few: u64,
    pub alarm: u64,
    pub frame: [u8; 366],
}

// What a call on one record gives: the refusal, and the record to be kept.
#[derive(Clone, Copy)]
pub struct Kept {
    pub refusal: u64,
    pub kept: Record,
}

pub fn state_of(r: Record) -> State
    ensures { result ≡ state_from r }
{
    // A proof by hand aside, an array goes into a struct by a variable of its own.
    let frame = r.frame;
    State {
        level: r.level,
        window: r.window as usize,
        seen: r.seen as usize,
        mode: numbers::mode_of(r.mode),
        place: r.place as usize,
        frame,
        stretch: Stretch {
            digits: r.digits as usize,
            zeros: r.zeros as usize,
            few: r.few != 0,
            alarm: r.alarm != 0,
        },
    }
}

pub fn record_of(s: State) -> Record
    ensures { result ≡ record_of s }
{
    let frame = s.frame;
    Record {
        level: s.level,
        window: s.window as u64,
        seen: s.seen as u64,
        mode: numbers::mode_number(s.mode),
        place: s.place as u64,
        digits: s.stretch.digits as u64,
        zeros: s.stretch.zeros as u64,
        few: digits::as_number(s.stretch.few),
        alarm: digits::as_number(s.stretch.alarm),
        frame,
    }
}

// What stays of a record that was fed: under a refusal the record itself, else the state after the piece.
fn kept_after(f: Fed, r: Record) -> Kept
    ensures { result ≡ kept_after f r }
{
    let refusal = f.refusal;
    if refusal != 0 {
        Kept { refusal, kept: r }
    } else {
        Kept {
            refusal,
            kept: record_of(f.state),
        }
    }
}

// Feeds a piece to the receiver that a record keeps, and writes the answer.
pub fn feed_record(r: Record, piece: &[u8], first: u64, count: u64, answer: &mut [u64; 4]) -> Kept
    ensures { (result ≡ kept_after (fed_record r piece.now first count) r) × (answer.new ≡ fed_answer (fed_record r piece.now first count)) }
{
    let fed = numbers::fed_by(
        state_of(r),
        r.few,
        r.alarm,
        piece,
        first as usize,
        count as usize,
    );
    *answer = numbers::fed_numbers(fed);
    kept_after(fed, r)
}

// Whether a record's receiver is in mode aligned, whatever else the record says.
pub fn is_aligned(mode: u64) -> bool
    ensures { result ≡ is_aligned mode }
{
    3 <= mode
}
