// One table of counts by kind and tributary: which of the fifteen sums a place of a line counts in, and one more in it. Kinds go by the layout,
// so neither a note nor a digit is looked at. specs/Tally.antt says what the fifteen are.
#![tactic(auto)]

ghost use Rattle.std.specs.Prelude.{◌≡◌, ℕ, ◌^◌, ◌<◌, get_or};
ghost use Rattle.levels.specs.Table.{Shared};
ghost use Rattle.tally.specs.Tally.{service_number, sum_number, number_at, one_more};

use levels::places;
use levels::places::{FramePlace, Kind, ServiceDigit};
use table::Row;

fn service_number(s: ServiceDigit) -> usize
    ensures { (result ≡ service_number s) × (result < 3) }
{
    match s {
        ServiceDigit::RemoteAlarm => 1,
        ServiceDigit::FirstNational => 2,
        ServiceDigit::SecondNational => 2,
        ServiceDigit::ThirdNational => 2,
        ServiceDigit::Fixed => 2,
    }
}

// The number of the sum of a kind, and of tributary j where a tributary owns the place.
fn sum_number(kind: Kind, j: usize) -> usize
    requires { j < 4 }
    ensures { (result ≡ sum_number kind j) × (result < 15) }
{
    match kind {
        Kind::Word => 0,
        Kind::Service(s) => service_number(s),
        Kind::Control => 3 + 3 * j,
        Kind::Justification(_) => 4 + 3 * j,
        Kind::Tributary => 5 + 3 * j,
    }
}

// Which sum a place of a line counts in.
pub fn number_at(row: Row, p: FramePlace) -> usize
    requires { Shared row }
    ensures { (result ≡ number_at row p.0) × (result < 15) }
{
    let kind = places::kind_at(row, FramePlace(p.0 % row.digits));
    sum_number(kind, places::tributary_at(p))
}

// One place more.
pub fn count_at(row: Row, p: FramePlace, sums: &mut [usize; 15])
    requires { Shared row × ((k : ℕ) → get_or sums.old k 0 < 2 ^ 63) }
    ensures { sums.new ≡ one_more sums.old (number_at row p.0) }
{
    sums[number_at(row, p)] += 1;
}
