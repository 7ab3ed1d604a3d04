// What is sent at a place that carries no digit of its tributary: the word's digits, the note's, the votes, and 1 where nothing else is said.
// specs/Line.antt says what stands at every place of a line. Multiplexing, swapping and repairing all ask here, so that they send the same.
ghost use Rattle.std.specs.Prelude.{◌≡◌, false, ℕ, ◌<◌};
ghost use Rattle.levels.specs.declared.order.Action.{Action};
ghost use Rattle.levels.specs.declared.places.Kind.TheVariants.{Word};
ghost use Rattle.levels.specs.Table.{Shared};
ghost use Rattle.levels.specs.Order.{carried};
ghost use Rattle.levels.specs.Word.{word_digit};
ghost use Rattle.levels.specs.Line.{service_by, digit_by};

use crate::order;
use crate::places::{Kind, ServiceDigit};
use table::Row;

// Digit r of the alignment word.
pub fn word_digit(row: Row, r: usize) -> u8
    requires { Shared row × (r < row.len) }
    ensures { (result ≡ word_digit row r) × (result < 2) }
{
    ((row.word >> (row.len - 1 - r)) % 2) as u8
}

// A service digit: its bit of the note, 1 where no note has one.
fn service_by(note: u8, digit: ServiceDigit) -> u8
    ensures { (result ≡ service_by note digit) × (result < 2) }
{
    match digit {
        ServiceDigit::RemoteAlarm => (note >> 4) % 2,
        ServiceDigit::FirstNational => (note >> 5) % 2,
        ServiceDigit::SecondNational => (note >> 6) % 2,
        ServiceDigit::ThirdNational => (note >> 7) % 2,
        ServiceDigit::Fixed => 1,
    }
}

// What place r of a set is sent as where it carries no digit of its tributary j (from 0): its kind says what. A control digit is the vote, an unused
// justification place 1.
pub fn idle_digit(row: Row, kind: Kind, note: u8, j: usize, r: usize) -> u8
    requires { Shared row × (j < 4) × (kind ≡ Word → r < row.len) }
    ensures { ((act : Action) (next : ℕ) → carried kind act ≡ false → result ≡ digit_by row note act j r next kind) × (result < 2) }
{
    match kind {
        Kind::Word => word_digit(row, r),
        Kind::Service(digit) => service_by(note, digit),
        Kind::Control => digits::digit_of(order::is_stuffed(note, j)),
        Kind::Justification(_) => 1,
        Kind::Tributary => 1,
    }
}
