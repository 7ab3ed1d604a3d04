// The digits of what a call is lent. A line is read and written at a place in a frame, a quarter is read at a place in a tributary,
// so that neither number can be used for the other.
ghost use Rattle.std.specs.Prelude.{◌≡◌, ◌*◌, ◌<◌, length, get_or, set};
ghost use Rattle.digits.specs.Digits.{digits_of, Bytes};

use crate::places::{FramePlace, TributaryPlace};

// The digit of a line at a place of its frames.
pub fn line_digit(line: &[u8], p: FramePlace) -> u8
    requires { p.0 < 8 * length line.now }
    ensures { (result ≡ get_or (digits_of line.now) p.0 0) × (result < 2) }
{
    digits::digit_at(line, p.0)
}

// Writes a digit of a line.
pub fn put_line_digit(line: &mut [u8], p: FramePlace, d: u8)
    requires { (p.0 < 8 * length line.old) × (d < 2) }
    ensures { (digits_of line.new ≡ set (digits_of line.old) p.0 d) × Bytes line.new }
{
    digits::put_digit(line, p.0, d);
}

// The digit of a quarter at a place of its tributary.
pub fn tributary_digit(quarter: &[u8], i: TributaryPlace) -> u8
    requires { i.0 < 8 * length quarter.now }
    ensures { (result ≡ get_or (digits_of quarter.now) i.0 0) × (result < 2) }
{
    digits::digit_at(quarter, i.0)
}
