// The level table of document 01 and of document 02, request 10, a row to a level, and the one function that finds a level's row.
// specs/Table.antt has the same table for a reader; that the two are equal is what `level_of` ensures.
#![tactic(auto)]

ghost use Rattle.std.specs.Prelude.{◌≡◌};
ghost use Rattle.table.specs.Table.{level_of};

// A row of the table.
#[derive(Clone, Copy)]
pub struct Row {
    // frame digits N, frame bytes
    pub digits: usize,
    pub bytes: usize,
    // sets, digits in a set
    pub sets: usize,
    pub set: usize,
    // alignment word, its L digits
    pub word: u16,
    pub len: usize,
    // remote alarm place, how many: one or none
    pub alarm: usize,
    pub alarms: usize,
    // first national place, how many
    pub national: usize,
    pub nationals: usize,
    // first tributary place of the first set, of a set between, of the last set: where each head ends
    pub first: usize,
    pub middle: usize,
    pub last: usize,
    // control digits in a group
    pub control: usize,
    // digits per tributary n, none stuffed and no negative place used
    pub n: usize,
    // room per tributary, in digits: one more than n where the level has negative places
    pub room: usize,
    // zeros that are few in N digits: alarm indication
    pub limit: usize,
}

// The head of the first set: the last digit of the word and the service places, where the word has eight digits, ten and
// twelve. The table and the patterns of levels/src/places.rt both read these.
pub const EIGHT_END: usize = 7;

pub const TEN_END: usize = 9;

pub const TEN_ALARM: usize = 10;

pub const TEN_NATIONAL: usize = 11;

pub const TWELVE_END: usize = 11;

pub const TWELVE_ALARM: usize = 12;

pub const TWELVE_NATIONAL: usize = 13;

pub const TWELVE_SECOND: usize = 14;

pub const TWELVE_THIRD: usize = 15;

// The head of a later set: the control digits, then four places and in the last set of some levels four more. The second four are service
// places in a set between, negative places in the last set where eight follow the control digits, positive places where four do.
pub const CONTROL_END: usize = 3;

pub const SECOND: usize = 4;

pub const SECOND_END: usize = 7;

pub const THIRD: usize = 8;

pub const THIRD_END: usize = 11;

const TABLE: [Row; 5] = [
    Row {
        digits: 848,
        bytes: 106,
        sets: 4,
        set: 212,
        word: 0b1111010000,
        len: TEN_END + 1,
        alarm: TEN_ALARM,
        alarms: 1,
        national: TEN_NATIONAL,
        nationals: 1,
        first: TEN_NATIONAL + 1,
        middle: CONTROL_END + 1,
        last: SECOND_END + 1,
        control: 3,
        n: 206,
        room: 206,
        limit: 4,
    },
    Row {
        digits: 1536,
        bytes: 192,
        sets: 4,
        set: 384,
        word: 0b1111010000,
        len: TEN_END + 1,
        alarm: TEN_ALARM,
        alarms: 1,
        national: TEN_NATIONAL,
        nationals: 1,
        first: TEN_NATIONAL + 1,
        middle: CONTROL_END + 1,
        last: SECOND_END + 1,
        control: 3,
        n: 378,
        room: 378,
        limit: 4,
    },
    Row {
        digits: 2928,
        bytes: 366,
        sets: 6,
        set: 488,
        word: 0b111110100000,
        len: TWELVE_END + 1,
        alarm: TWELVE_ALARM,
        alarms: 1,
        national: TWELVE_NATIONAL,
        nationals: 3,
        first: TWELVE_THIRD + 1,
        middle: CONTROL_END + 1,
        last: SECOND_END + 1,
        control: 5,
        n: 723,
        room: 723,
        limit: 5,
    },
    Row {
        digits: 1056,
        bytes: 132,
        sets: 4,
        set: 264,
        word: 0b11100110,
        len: EIGHT_END + 1,
        alarm: EIGHT_END + 1,
        alarms: 0,
        national: EIGHT_END + 1,
        nationals: 0,
        first: EIGHT_END + 1,
        middle: SECOND_END + 1,
        last: THIRD_END + 1,
        control: 3,
        n: 256,
        room: 257,
        limit: 2,
    },
    Row {
        digits: 2176,
        bytes: 272,
        sets: 4,
        set: 544,
        word: 0b1111010000,
        len: TEN_END + 1,
        alarm: TEN_ALARM,
        alarms: 0,
        national: TEN_ALARM,
        nationals: 0,
        first: TEN_NATIONAL + 1,
        middle: CONTROL_END + 1,
        last: THIRD_END + 1,
        control: 3,
        n: 537,
        room: 538,
        limit: 4,
    },
];

// The row of a level, or that there is no such level: any number may come.
pub fn level_of(level: u64) -> Option<Row>
    ensures { result ≡ level_of level }
{
    match level {
        2 => Some(TABLE[0]),
        3 => Some(TABLE[1]),
        4 => Some(TABLE[2]),
        12 => Some(TABLE[3]),
        14 => Some(TABLE[4]),
        _ => None,
    }
}
