// Where two recordings differ (request 6): two captures are read, held against each other and compared. specs/Compare.antt says what the comparison
// answers and what it lists. lines.rt compares two lines that stand in no file. What differs crate `differing` counts and lists.
#![tactic(auto)]

pub mod lines;

ghost use Rattle.std.specs.Prelude.{◌≡◌, ◌+◌, ◌*◌, ◌<◌, ◌≤◌, length};
ghost use Rattle.levels.specs.Table.{Shared};
ghost use Rattle.levels.specs.Sizes.{frames_of};
ghost use Rattle.captures.specs.Captures.{bytes_in};
ghost use Rattle.differing.specs.Differing.{counted_on, listed_on};
ghost use Rattle.compare.specs.Compare.{fault_in, fault_of, refused_by, CompareMet};

use captures::{Part, Reading};
use differing::Compared;
use table::Row;

// Why two files are not compared: the refusal, or 0; the file at fault, 1 or 2, or 0 where the two do not fit each other; the byte it names.
#[derive(Clone, Copy)]
pub struct Fault {
    pub refusal: u64,
    pub file: u64,
    pub byte: usize,
}

pub fn fault_in(refusal: u64, file: u64, byte: usize) -> Fault
    ensures { result ≡ fault_in refusal file byte }
{
    Fault {
        refusal,
        file,
        byte,
    }
}

// All of the first file before the second; then the two against each other, the level before the length of the lines.
fn fault_of(one: Reading, other: Reading) -> Fault
    ensures { result ≡ fault_of one other }
{
    if one.refusal != 0 {
        fault_in(one.refusal, 1, one.byte)
    } else if other.refusal != 0 {
        fault_in(other.refusal, 2, other.byte)
    } else if one.level != other.level {
        fault_in(1, 0, 0)
    } else if one.line.bytes != other.line.bytes {
        fault_in(2, 0, 0)
    } else {
        fault_in(0, 0, 0)
    }
}

pub fn refused(fault: Fault) -> Compared
    ensures { result ≡ refused_by fault }
{
    Compared {
        refusal: fault.refusal,
        file: fault.file,
        byte: fault.byte,
        sums: [0; 15],
        all: 0,
        listed: 0,
    }
}

// The row is known, and the lines stand in these parts of the files.
fn compared_on(
    row: Row,
    one: &[u8],
    other: &[u8],
    first: Part,
    second: Part,
    places: &mut [u64; 128],
) -> Compared
    requires { Shared row
        × (first.start + first.bytes ≤ length one.now)
        × (second.start + second.bytes ≤ length other.now)
        × (first.bytes ≡ second.bytes)
        × (first.bytes < 65536)
        × (first.bytes ≡ frames_of row first.bytes * row.bytes) }
    ensures { (result ≡ counted_on row (bytes_in one.now first) (bytes_in other.now second))
        × (places.new ≡ listed_on row (bytes_in one.now first) (bytes_in other.now second)) }
{
    let one = &one[first.start..first.start + first.bytes];
    let other = &other[second.start..second.start + second.bytes];
    differing::counted_on(row, one, other, places)
}

// Compares two captures. Any bytes: where they are no two captures of one level and length, the list stays as it was, and all is zero but what the
// refusal names.
pub fn compare(one: &[u8], other: &[u8], places: &mut [u64; 128]) -> Compared
    ensures { CompareMet one.now other.now places.old result places.new }
{
    let first = captures::read(one);
    let second = captures::read(other);
    let fault = fault_of(first, second);
    if fault.refusal != 0 {
        return refused(fault);
    }
    let found = table::level_of(first.level);
    match found {
        Some(row) => compared_on(row, one, other, first.line, second.line, places),
        None => refused(fault_in(1, 0, 0)),
    }
}
