// What a place of a frame is, and the walk along a tributary's own places, a column of four places at a time.
ghost use Rattle.std.specs.Prelude.{◌≡◌, ℕ, ◌+◌, ◌%◌, ◌<◌, ◌≤◌};
ghost use Rattle.levels.specs.Table.{Shared};
ghost use Rattle.levels.specs.Places.{service_digit, first_set, middle_set, last_set, head_end, kind_of, kind_at, pos_of, is_own};

use table::{
    CONTROL_END, EIGHT_END, Row, SECOND, SECOND_END, TEN_ALARM, TEN_END, TEN_NATIONAL, THIRD,
    THIRD_END, TWELVE_ALARM, TWELVE_END, TWELVE_THIRD,
};

// A place in a frame, 0 to N - 1, counted on from frame to frame in a line, and a place in a tributary: the number of a digit in
// its quarter. Two kinds of numbers: lent.rt reads and writes a line by the one and a quarter by the other.
#[derive(Clone, Copy)]
pub struct FramePlace(pub usize);

#[derive(Clone, Copy)]
pub struct TributaryPlace(pub usize);

#[derive(Clone, Copy)]
pub enum ServiceDigit {
    RemoteAlarm,
    FirstNational,
    SecondNational,
    ThirdNational,
    // in no note: sent as 1 and never reported
    Fixed,
}

// A positive place is left out by stuffing, a negative place carries a digit more.
#[derive(Clone, Copy)]
pub enum Sign {
    Negative,
    Positive,
}

#[derive(Clone, Copy)]
pub enum Kind {
    Word,
    Service(ServiceDigit),
    Control,
    Justification(Sign),
    Tributary,
}

// Where a walk along a line stands: the frame, the set in the frame, the place in the set, each from 0.
#[derive(Clone, Copy)]
pub struct At {
    pub frame: usize,
    pub set: usize,
    pub place: usize,
}

// Service digit k of the first set's head: those that a note has, in the order of its bits, then those that no note has.
fn service_digit(row: Row, k: usize) -> ServiceDigit
    requires { Shared row }
    ensures { result ≡ service_digit row k }
{
    if row.alarms + row.nationals <= k {
        return ServiceDigit::Fixed;
    }
    match k {
        0 => ServiceDigit::RemoteAlarm,
        1 => ServiceDigit::FirstNational,
        2 => ServiceDigit::SecondNational,
        _ => ServiceDigit::ThirdNational,
    }
}

// Place r of a first set whose word has eight digits. The ranges of a `match` are constants, so each length of a word has a function of its own.
fn head_of_eight(row: Row, r: usize) -> Kind
    requires { Shared row × (row.len ≡ 8) × (row.first ≡ 8) }
    ensures { result ≡ first_set row r }
{
    match r {
        0..=EIGHT_END => Kind::Word,
        _ => Kind::Tributary,
    }
}

// Place r of a first set whose word has ten digits.
fn head_of_ten(row: Row, r: usize) -> Kind
    requires { Shared row × (row.len ≡ 10) }
    ensures { result ≡ first_set row r }
{
    match r {
        0..=TEN_END => Kind::Word,
        TEN_ALARM..=TEN_NATIONAL => Kind::Service(service_digit(row, r - TEN_ALARM)),
        _ => Kind::Tributary,
    }
}

// Place r of a first set whose word has twelve digits.
fn head_of_twelve(row: Row, r: usize) -> Kind
    requires { Shared row × (row.len ≡ 12) }
    ensures { result ≡ first_set row r }
{
    match r {
        0..=TWELVE_END => Kind::Word,
        TWELVE_ALARM..=TWELVE_THIRD => Kind::Service(service_digit(row, r - TWELVE_ALARM)),
        _ => Kind::Tributary,
    }
}

// Place r of the first set.
fn first_set(row: Row, r: usize) -> Kind
    requires { Shared row }
    ensures { result ≡ first_set row r }
{
    if row.len == TEN_END + 1 {
        head_of_ten(row, r)
    } else if row.len == TWELVE_END + 1 {
        head_of_twelve(row, r)
    } else {
        head_of_eight(row, r)
    }
}

// Place r of a set between the first and the last.
fn middle_set(row: Row, r: usize) -> Kind
    requires { Shared row }
    ensures { result ≡ middle_set row r }
{
    match r {
        0..=CONTROL_END => Kind::Control,
        SECOND..=SECOND_END => {
            if row.middle == SECOND_END + 1 {
                Kind::Service(ServiceDigit::Fixed)
            } else {
                Kind::Tributary
            }
        }
        _ => Kind::Tributary,
    }
}

// Place r of the last set.
fn last_set(row: Row, r: usize) -> Kind
    requires { Shared row }
    ensures { result ≡ last_set row r }
{
    match r {
        0..=CONTROL_END => Kind::Control,
        SECOND..=SECOND_END => {
            if row.last == THIRD_END + 1 {
                Kind::Justification(Sign::Negative)
            } else {
                Kind::Justification(Sign::Positive)
            }
        }
        THIRD..=THIRD_END => {
            if row.last == THIRD_END + 1 {
                Kind::Justification(Sign::Positive)
            } else {
                Kind::Tributary
            }
        }
        _ => Kind::Tributary,
    }
}

// What the place is at which a walk stands.
pub fn kind_of(row: Row, at: At) -> Kind
    requires { Shared row }
    ensures { result ≡ kind_of row at.set at.place }
{
    if at.set == 0 {
        first_set(row, at.place)
    } else if at.set == row.sets - 1 {
        last_set(row, at.place)
    } else {
        middle_set(row, at.place)
    }
}

// Where the head of a set ends: its first tributary place. From there to the set's end is a run of tributary digits.
pub fn head_end(row: Row, set: usize) -> usize
    requires { Shared row }
    ensures { result ≡ head_end row set }
{
    if set == 0 {
        row.first
    } else if set == row.sets - 1 {
        row.last
    } else {
        row.middle
    }
}

// Where a place of a frame stands, in a line of this one frame.
pub fn at_place(row: Row, p: FramePlace) -> At
    requires { Shared row × (p.0 < row.digits) }
    ensures { result ≡ pos_of row p.0 }
{
    At {
        frame: 0,
        set: p.0 / row.set,
        place: p.0 % row.set,
    }
}

// What a place of a frame is.
pub fn kind_at(row: Row, p: FramePlace) -> Kind
    requires { Shared row × (p.0 < row.digits) }
    ensures { result ≡ kind_at row p.0 }
{
    kind_of(row, at_place(row, p))
}

// Whether a place of this kind is one of its tributary's own places.
pub fn is_own(kind: Kind) -> bool
    ensures { result ≡ is_own kind }
{
    !matches!(kind, Kind::Word | Kind::Service(_))
}

// Whose a place of a frame is: the tributary, from 0, is the remainder by four.
pub fn tributary_at(p: FramePlace) -> usize
    ensures { result ≡ p.0 % 4 }
{
    p.0 % 4
}

// The next column: four places on. A call's line has at most 64 frames.
pub fn next_column(row: Row, at: At) -> At
    requires { Shared row × (at.frame ≤ 64) × (at.set < row.sets) × (at.place < row.set) }
    ensures { (p : ℕ) → at ≡ pos_of row p → result ≡ pos_of row (p + 4) }
{
    let place = at.place + 4;
    let set = at.set + 1;
    if place < row.set {
        At { place, ..at }
    } else if set < row.sets {
        At {
            set,
            place: place - row.set,
            ..at
        }
    } else {
        At {
            frame: at.frame + 1,
            set: 0,
            place: place - row.set,
        }
    }
}
