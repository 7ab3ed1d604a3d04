// The multiframe of 2048 kbit/s, request 3 of document 02: built from thirty channels, their signalling and the spare digits, and taken apart.
// specs/Multiframe.antt says what each of its 4096 digits is; specs/Calls.antt, what the two calls answer and leave. Channels and signalling
// are whole bytes on both sides and move as such; spare digits go through `digits`.
#![tactic(auto)]

pub mod kinds;

ghost use Rattle.std.specs.Prelude.{◌≡◌, cond, ◌+◌, ◌*◌, ◌%◌, ◌<◌, ◌≤◌, All, map, ltb, length, position};
ghost use Rattle.digits.specs.Digits.{digits_of, byte_of};
ghost use Rattle.multiframe.specs.Steps.{ColumnPut, ColumnTaken, column_of, Channelled, Laid};
ghost use Rattle.multiframe.specs.Steps.{word_byte, other_byte, first_bytes, sixteenth_byte, at, spare_bytes};
ghost use Rattle.multiframe.specs.Calls.{lengths_right, BuildMet, ApartMet, Taken};
ghost use Rattle.multiframe.specs.Calls.{number_of, refusal_in, naming_none, numbers_of};

use digits::digit_at;

// The spare digits by their names: reserved for international use (M), alarm (A), for use at home, and in byte 16 of frame 0 X and Y.
#[derive(Clone, Copy)]
pub enum SpareDigit {
    International,
    Alarm,
    National,
    Extra,
    MultiframeAlarm,
}

// What a digit of a multiframe is: fixed at 0 or 1, spare, or of a channel, 1 to 30.
#[derive(Clone, Copy)]
pub enum Kind {
    Fixed(u8),
    Spare(SpareDigit),
    Signalling(usize),
    Channel(usize),
}

// The refusals that the two calls know, of those of the table of docs/GUIDE.md. An enum of this crate's own, which stands on `digits` alone.
#[derive(Clone, Copy, Debug, PartialEq, Eq, Hash)]
pub enum Refusal {
    // a slice has not the length that it has for one multiframe
    Line,
    // signalling 0000 for one of channels 1 to 15
    Signalling,
}

impl From<Refusal> for u64 {
    ghost from_gives = { λ refusal number. number ≡ number_of refusal };

    fn from(refusal: Refusal) -> u64 {
        match refusal {
            Refusal::Line => 2,
            Refusal::Signalling => 11,
        }
    }
}

// Why `build` is refused, and the channel that the refusal names: 0 where it names none.
#[derive(Clone, Copy, Debug, PartialEq, Eq, Hash)]
pub struct Refused {
    pub refusal: Refusal,
    pub channel: usize,
}

impl From<Refusal> for Refused {
    ghost from_gives = { λ refusal refused. refused ≡ naming_none refusal };

    // A refusal that names no channel.
    fn from(refusal: Refusal) -> Refused {
        Refused {
            refusal,
            channel: 0,
        }
    }
}

// The last four digits of the ninth byte of the spare digits, when they are taken.
const UNUSED: u8 = 0;

fn lengths_right(multiframe: usize, channels: usize, signalling: usize, spare: usize) -> bool
    ensures { result ≡ lengths_right multiframe channels signalling spare }
{
    multiframe == 512 && channels == 480 && signalling == 15 && spare == 9
}

// The first byte of the signalling whose channel, one of 1 to 15, has 0000: these have the first four digits of each byte.
fn first_silent(signalling: &[u8]) -> Option<usize>
    requires { length signalling.now ≡ 15 }
    ensures { result ≡ position (λ byte. ltb byte 16) signalling.now }
{
    signalling.iter().position(|byte| *byte < 16)
}

// Puts the bytes of a column into every 32nd byte of the multiframe, from `first` on.
fn put_column(multiframe: &mut [u8], first: usize, column: &[u8])
    requires { (length multiframe.old ≡ 512) × (length column.now ≤ 16) × (first + 32 * length column.now < 544) }
    ensures { ColumnPut multiframe.old first column.now (length column.now) multiframe.new }
{
    for (f, byte) in column.iter().enumerate() {
        multiframe[first + 32 * f] = *byte;
    }
}

// Takes the bytes of a column out of every 32nd byte of the multiframe, from `first` on.
fn take_column(multiframe: &[u8], first: usize, column: &mut [u8])
    requires { (length multiframe.now ≡ 512) × (length column.old ≤ 16) × (first + 32 * length column.old < 544) }
    ensures { ColumnTaken multiframe.now first (length column.old) column.new }
{
    for (f, byte) in column.iter_mut().enumerate() {
        *byte = multiframe[first + 32 * f];
    }
}

// The byte of each frame that is channel c's, which is counted from 0 here: byte 16 is between channels 15 and 16.
fn column_of(c: usize) -> usize
    requires { c < 30 }
    ensures { result ≡ column_of c }
{
    if c < 15 { c + 1 } else { c + 2 }
}

fn put_channels(multiframe: &mut [u8], channels: &[u8])
    requires { (length multiframe.old ≡ 512) × (length channels.now ≡ 480) }
    ensures { Channelled channels.now multiframe.new }
{
    for c in 0..30 {
        let start = 16 * c;
        let end = start + 16;
        put_column(multiframe, column_of(c), &channels[start..end]);
    }
}

fn take_channels(multiframe: &[u8], channels: &mut [u8])
    requires { (length multiframe.now ≡ 512) × (length channels.old ≡ 480) }
    ensures { Channelled channels.new multiframe.now }
{
    for c in 0..30 {
        let start = 16 * c;
        let end = start + 16;
        take_column(multiframe, column_of(c), &mut channels[start..end]);
    }
}

// The byte whose eight digits these are.
fn byte_of(digits: [u8; 8]) -> u8
    requires { All (λ d. d < 2) digits }
    ensures { result ≡ byte_of digits }
{
    128 * digits[0]
        + 64 * digits[1]
        + 32 * digits[2]
        + 16 * digits[3]
        + 8 * digits[4]
        + 4 * digits[5]
        + 2 * digits[6]
        + digits[7]
}

// Byte 0 of a frame with the word, and of one without: its spare digits are those from digit i on.
fn with_word(spare: &[u8], i: usize) -> u8
    requires { (length spare.now ≡ 9) × (i < 72) }
    ensures { result ≡ word_byte (digits_of spare.now) i }
{
    byte_of([digit_at(spare, i), 0, 0, 1, 1, 0, 1, 1])
}

fn without_word(spare: &[u8], i: usize) -> u8
    requires { (length spare.now ≡ 9) × (i < 66) }
    ensures { result ≡ other_byte (digits_of spare.now) i }
{
    byte_of([
        digit_at(spare, i),
        1,
        digit_at(spare, i + 1),
        digit_at(spare, i + 2),
        digit_at(spare, i + 3),
        digit_at(spare, i + 4),
        digit_at(spare, i + 5),
        digit_at(spare, i + 6),
    ])
}

// Byte 0 of each frame.
fn first_bytes(spare: &[u8]) -> [u8; 16]
    requires { length spare.now ≡ 9 }
    ensures { result ≡ first_bytes (digits_of spare.now) }
{
    [
        with_word(spare, 0),
        without_word(spare, 5),
        with_word(spare, 12),
        without_word(spare, 13),
        with_word(spare, 20),
        without_word(spare, 21),
        with_word(spare, 28),
        without_word(spare, 29),
        with_word(spare, 36),
        without_word(spare, 37),
        with_word(spare, 44),
        without_word(spare, 45),
        with_word(spare, 52),
        without_word(spare, 53),
        with_word(spare, 60),
        without_word(spare, 61),
    ]
}

// Byte 16 of frame 0: 0000, then X Y X X.
fn multiframe_byte(spare: &[u8]) -> u8
    requires { length spare.now ≡ 9 }
    ensures { result ≡ sixteenth_byte (digits_of spare.now) }
{
    byte_of([
        0,
        0,
        0,
        0,
        digit_at(spare, 1),
        digit_at(spare, 2),
        digit_at(spare, 3),
        digit_at(spare, 4),
    ])
}

// Every byte of the multiframe.
fn lay(multiframe: &mut [u8], channels: &[u8], signalling: &[u8], spare: &[u8])
    requires { (length multiframe.old ≡ 512) × (length channels.now ≡ 480) × (length signalling.now ≡ 15) × (length spare.now ≡ 9) }
    ensures { Laid channels.now signalling.now spare.now multiframe.new }
{
    put_channels(multiframe, channels);
    let firsts = first_bytes(spare);
    put_column(multiframe, 0, &firsts);
    multiframe[16] = multiframe_byte(spare);
    put_column(multiframe, 48, signalling);
}

// The byte whose digits stand at these places.
fn digits_at(multiframe: &[u8], places: [usize; 8]) -> u8
    requires { (length multiframe.now ≡ 512) × All (λ p. p < 4096) places }
    ensures { result ≡ byte_of (map (at (digits_of multiframe.now)) places) }
{
    byte_of([
        digit_at(multiframe, places[0]),
        digit_at(multiframe, places[1]),
        digit_at(multiframe, places[2]),
        digit_at(multiframe, places[3]),
        digit_at(multiframe, places[4]),
        digit_at(multiframe, places[5]),
        digit_at(multiframe, places[6]),
        digit_at(multiframe, places[7]),
    ])
}

// The spare digits, packed: the places of the 68 in order, eight to a byte, and four zeros.
fn spare_bytes(multiframe: &[u8]) -> [u8; 9]
    requires { length multiframe.now ≡ 512 }
    ensures { result ≡ spare_bytes (digits_of multiframe.now) }
{
    [
        digits_at(multiframe, [0, 132, 133, 134, 135, 256, 258, 259]),
        digits_at(multiframe, [260, 261, 262, 263, 512, 768, 770, 771]),
        digits_at(multiframe, [772, 773, 774, 775, 1024, 1280, 1282, 1283]),
        digits_at(multiframe, [1284, 1285, 1286, 1287, 1536, 1792, 1794, 1795]),
        digits_at(multiframe, [1796, 1797, 1798, 1799, 2048, 2304, 2306, 2307]),
        digits_at(multiframe, [2308, 2309, 2310, 2311, 2560, 2816, 2818, 2819]),
        digits_at(multiframe, [2820, 2821, 2822, 2823, 3072, 3328, 3330, 3331]),
        digits_at(multiframe, [3332, 3333, 3334, 3335, 3584, 3840, 3842, 3843]),
        byte_of([
            digit_at(multiframe, 3844),
            digit_at(multiframe, 3845),
            digit_at(multiframe, 3846),
            digit_at(multiframe, 3847),
            UNUSED,
            UNUSED,
            UNUSED,
            UNUSED,
        ]),
    ]
}

fn take_spare(multiframe: &[u8], spare: &mut [u8])
    requires { (length multiframe.now ≡ 512) × (length spare.old ≡ 9) }
    ensures { spare.new ≡ spare_bytes (digits_of multiframe.now) }
{
    spare.copy_from_slice(&spare_bytes(multiframe));
}

// Builds a multiframe. Any lengths: those of another multiframe are refused with 2, and then signalling 0000 for channels 1 to 15 with 11.
pub fn build(
    multiframe: &mut [u8],
    channels: &[u8],
    signalling: &[u8],
    spare: &[u8],
) -> Result<(), Refused>
    ensures { BuildMet multiframe.old channels.now signalling.now spare.now (numbers_of result) multiframe.new }
{
    if !lengths_right(
        multiframe.len(),
        channels.len(),
        signalling.len(),
        spare.len(),
    ) {
        return Err(Refused::from(Refusal::Line));
    }
    if let Some(i) = first_silent(signalling) {
        return Err(Refused {
            refusal: Refusal::Signalling,
            channel: i + 1,
        });
    }
    lay(multiframe, channels, signalling, spare);
    Ok(())
}

// Takes a multiframe apart, whatever its fixed digits are.
pub fn apart(
    multiframe: &[u8],
    channels: &mut [u8],
    signalling: &mut [u8],
    spare: &mut [u8],
) -> Result<(), Refusal>
    ensures { ApartMet multiframe.now channels.old signalling.old spare.old (refusal_in result) channels.new
        signalling.new spare.new }
{
    if !lengths_right(
        multiframe.len(),
        channels.len(),
        signalling.len(),
        spare.len(),
    ) {
        return Err(Refusal::Line);
    }
    take_channels(multiframe, channels);
    take_column(multiframe, 48, signalling);
    take_spare(multiframe, spare);
    Ok(())
}
