// What each digit of a multiframe is, for whoever names or draws it: `kind_at` of specs/Multiframe.antt in code, table by table.
ghost use Rattle.std.specs.Prelude.{◌≡◌, cond, ◌<◌, ◌%◌, eqb, get_or};
ghost use Rattle.multiframe.specs.declared.Kind.TheVariants.{Fixed};
ghost use Rattle.multiframe.specs.Multiframe.{with_word, without_word, multiframe_byte, signalling_byte, channel_of, kind_at};

use crate::{Kind, SpareDigit};

// Table 1, byte 0 of a frame with the word: M 0 0 1 1 0 1 1.
const WITH_WORD: [Kind; 8] = [
    Kind::Spare(SpareDigit::International),
    Kind::Fixed(0),
    Kind::Fixed(0),
    Kind::Fixed(1),
    Kind::Fixed(1),
    Kind::Fixed(0),
    Kind::Fixed(1),
    Kind::Fixed(1),
];

// Table 1, byte 0 of a frame without the word: M 1 A and five digits for use at home.
const WITHOUT_WORD: [Kind; 8] = [
    Kind::Spare(SpareDigit::International),
    Kind::Fixed(1),
    Kind::Spare(SpareDigit::Alarm),
    Kind::Spare(SpareDigit::National),
    Kind::Spare(SpareDigit::National),
    Kind::Spare(SpareDigit::National),
    Kind::Spare(SpareDigit::National),
    Kind::Spare(SpareDigit::National),
];

// Table 2, byte 16 of frame 0: 0000, then X Y X X.
const MULTIFRAME_BYTE: [Kind; 8] = [
    Kind::Fixed(0),
    Kind::Fixed(0),
    Kind::Fixed(0),
    Kind::Fixed(0),
    Kind::Spare(SpareDigit::Extra),
    Kind::Spare(SpareDigit::MultiframeAlarm),
    Kind::Spare(SpareDigit::Extra),
    Kind::Spare(SpareDigit::Extra),
];

// Table 2, byte 16 of frame k: four digits for channel k, then four for k + 15.
fn signalling_byte(k: usize) -> [Kind; 8]
    requires { k < 16 }
    ensures { result ≡ signalling_byte k }
{
    let first = Kind::Signalling(k);
    let second = Kind::Signalling(k + 15);
    [first, first, first, first, second, second, second, second]
}

// Bytes 1 to 15 and 17 to 31 are channels 1 to 30.
fn channel_of(b: usize) -> usize
    requires { 0 < b }
    ensures { result ≡ channel_of b }
{
    if b < 16 { b } else { b - 1 }
}

// Digit i of byte 0 of a frame: even frames have the word.
fn first_byte(frame: usize, i: usize) -> Kind
    requires { i < 8 }
    ensures { result ≡ get_or (cond (eqb (frame % 2) 0) with_word without_word) i (Fixed 0) }
{
    if frame % 2 == 0 {
        WITH_WORD[i]
    } else {
        WITHOUT_WORD[i]
    }
}

// Digit i of byte 16 of a frame.
fn sixteenth_byte(frame: usize, i: usize) -> Kind
    requires { (frame < 16) × (i < 8) }
    ensures { result ≡ get_or (cond (eqb frame 0) multiframe_byte (signalling_byte frame)) i (Fixed 0) }
{
    if frame == 0 {
        MULTIFRAME_BYTE[i]
    } else {
        signalling_byte(frame)[i]
    }
}

// Place p of the multiframe.
pub fn kind_at(p: usize) -> Kind
    requires { p < 4096 }
    ensures { result ≡ kind_at p }
{
    match p / 8 % 32 {
        0 => first_byte(p / 256, p % 8),
        16 => sixteenth_byte(p / 256, p % 8),
        byte => Kind::Channel(channel_of(byte)),
    }
}
