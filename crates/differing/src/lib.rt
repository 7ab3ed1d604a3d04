// Where two lines of a level differ: how many digits, counted by kind of place and tributary, and the frames and places of the first 64.
// specs/Differing.antt says what is counted and listed. A crate of its own below the calls that compare, so that it and the wrong programs that change it
// are checked quickly.
#![tactic(auto)]

pub mod counting;
pub mod entries;

ghost use Rattle.std.specs.Prelude.{◌≡◌};
ghost use Rattle.differing.specs.Differing.{counted_on, listed_on};
ghost use Rattle.differing.specs.Counting.{Lines};

use table::Row;

// The first so many differing digits are listed.
pub const LISTED_MOST: usize = 64;

// The answer: the refusal, the file at fault and the byte named, which are 0 unless crate `compare` refuses; the fifteen sums of differing digits by kind
// and tributary; all differing digits; how many of them are listed.
#[derive(Clone, Copy)]
pub struct Compared {
    pub refusal: u64,
    pub file: u64,
    pub byte: usize,
    pub sums: [usize; 15],
    pub all: usize,
    pub listed: usize,
}

// Two lines of one length are counted and listed: the core of every comparison.
pub fn counted_on(row: Row, one: &[u8], other: &[u8], places: &mut [u64; 128]) -> Compared
    requires { Lines row one.now other.now }
    ensures { (result ≡ counted_on row one.now other.now)
        × (places.new ≡ listed_on row one.now other.now) }
{
    *places = [0; 128];
    let mut sums: [usize; 15] = [0; 15];
    entries::list_lines(row, one, other, places);
    counting::count_frames(row, one, other, &mut sums);
    let all = counting::total(&sums);
    Compared {
        refusal: 0,
        file: 0,
        byte: 0,
        sums,
        all,
        listed: all.min(LISTED_MOST),
    }
}
