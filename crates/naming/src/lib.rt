// What a place is, for whoever names or draws it, in the numbers that a caller has: of a frame at each level (this file) and of a multiframe of 2048 kbit/s.
// specs/Frames.antt and specs/Multiframes.antt say which number is what.
#![tactic(auto)]

pub mod multiframes;

ghost use Rattle.std.specs.Prelude.{◌≡◌, ◌<◌};
ghost use Rattle.levels.specs.Table.{Shared};
ghost use Rattle.naming.specs.Frames.{service_number, sign_number, kind_number, owner_of, place_in, numbers_of, PlaceMet};

use levels::places;
use levels::places::{FramePlace, Kind, ServiceDigit, Sign};
use refusal::Refusal;
use table::Row;

// The number of a place's kind, and the tributary, 1 to 4, that owns the place, or 0.
#[derive(Clone, Copy, Debug, PartialEq, Eq, Hash)]
pub struct PlaceName {
    pub kind: u64,
    pub tributary: u64,
}

fn service_number(s: ServiceDigit) -> u64
    ensures { result ≡ service_number s }
{
    match s {
        ServiceDigit::RemoteAlarm => 1,
        _ => 2,
    }
}

fn sign_number(sign: Sign) -> u64
    ensures { result ≡ sign_number sign }
{
    match sign {
        Sign::Negative => 5,
        Sign::Positive => 4,
    }
}

fn kind_number(kind: Kind) -> u64
    ensures { result ≡ kind_number kind }
{
    match kind {
        Kind::Word => 0,
        Kind::Service(s) => service_number(s),
        Kind::Control => 3,
        Kind::Justification(sign) => sign_number(sign),
        Kind::Tributary => 6,
    }
}

// The tributary, 1 to 4, that owns place p of this kind, or 0.
fn owner_of(kind: Kind, p: usize) -> u64
    ensures { result ≡ owner_of kind p }
{
    if places::is_own(kind) {
        (p % 4 + 1) as u64
    } else {
        0
    }
}

// Place p of a frame.
fn place_in(row: Row, p: usize) -> Result<PlaceName, Refusal>
    requires { Shared row }
    ensures { numbers_of result ≡ place_in row p }
{
    if row.digits <= p {
        return Err(Refusal::Digits);
    }
    let kind = places::kind_at(row, FramePlace(p));
    Ok(PlaceName {
        kind: kind_number(kind),
        tributary: owner_of(kind, p),
    })
}

// Place p of a frame of the level of this number.
pub fn place(level: u64, p: usize) -> Result<PlaceName, Refusal>
    ensures { PlaceMet level p (numbers_of result) }
{
    match table::level_of(level) {
        Some(row) => place_in(row, p),
        None => Err(Refusal::Level),
    }
}
