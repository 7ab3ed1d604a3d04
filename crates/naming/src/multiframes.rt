// What a place of the multiframe of 2048 kbit/s is.
ghost use Rattle.std.specs.Prelude.{◌≡◌};
ghost use Rattle.naming.specs.Multiframes.{spare_number, fixed_number, kind_number, number_of, numbers_of, MultiframePlaceMet};

use multiframe::{Kind, SpareDigit, kinds};
use refusal::Refusal;

// The number of a place's kind, and the digit that is fixed there or the channel whose it is, or 0.
#[derive(Clone, Copy, Debug, PartialEq, Eq, Hash)]
pub struct MultiframePlaceName {
    pub kind: u64,
    pub number: u64,
}

fn spare_number(s: SpareDigit) -> u64
    ensures { result ≡ spare_number s }
{
    match s {
        SpareDigit::International => 3,
        SpareDigit::Alarm => 4,
        SpareDigit::National => 5,
        SpareDigit::Extra => 6,
        SpareDigit::MultiframeAlarm => 7,
    }
}

// A fixed digit: of the word in byte 0 of even frames, the second of the others, or of the start of the multiframe in byte 16.
#[tactic(auto, unfolding(crate::specs::Multiframes::fixed_number))]
fn fixed_number(p: usize) -> u64
    ensures { result ≡ fixed_number p }
{
    if p / 8 % 32 != 0 {
        2
    } else if p / 256 % 2 == 0 {
        0
    } else {
        1
    }
}

fn kind_number(kind: Kind, p: usize) -> u64
    ensures { result ≡ kind_number kind p }
{
    match kind {
        Kind::Fixed(_) => fixed_number(p),
        Kind::Spare(s) => spare_number(s),
        Kind::Signalling(_) => 8,
        Kind::Channel(_) => 9,
    }
}

fn number_of(kind: Kind) -> u64
    ensures { result ≡ number_of kind }
{
    match kind {
        Kind::Fixed(d) => d as u64,
        Kind::Spare(_) => 0,
        Kind::Signalling(c) | Kind::Channel(c) => c as u64,
    }
}

// Place p of the multiframe.
pub fn multiframe_place(p: usize) -> Result<MultiframePlaceName, Refusal>
    ensures { MultiframePlaceMet p (numbers_of result) }
{
    if 4096 <= p {
        return Err(Refusal::Digits);
    }
    let kind = kinds::kind_at(p);
    Ok(MultiframePlaceName {
        kind: kind_number(kind, p),
        number: number_of(kind),
    })
}
