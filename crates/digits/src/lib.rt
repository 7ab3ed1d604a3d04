// Packed digits: read the digit at a place of a slice, write the digit at a place of a slice, count the zeros of a part.
// Digits stand eight to a byte, first digit in the most significant bit. Statements above speak of lists of digits
// (specs/Digits.antt) and cite the laws in proofs/Laws.antt.
#![tactic(auto)]

pub mod zeros;

ghost use Rattle.std.specs.Prelude.{◌≡◌, cond, ◌*◌, ◌<◌, length, get_or, set};
ghost use Rattle.digits.specs.Digits.{digits_of, with_digit, Bytes};

// The digit at place p.
pub fn digit_at(s: &[u8], p: usize) -> u8
    requires { p < 8 * length s.now }
    ensures { (result ≡ get_or (digits_of s.now) p 0) × (result < 2) }
{
    (s[p / 8] >> (7 - p % 8)) % 2
}

// The same for any place: past the end there are zeros.
pub fn digit_or_zero(s: &[u8], p: usize) -> u8
    ensures { (result ≡ get_or (digits_of s.now) p 0) × (result < 2) }
{
    if p / 8 < s.len() { digit_at(s, p) } else { 0 }
}

// Digit d at place p; every other digit stays. What is left are bytes, so that equal digits are equal slices.
pub fn put_digit(s: &mut [u8], p: usize, d: u8)
    requires { (p < 8 * length s.old) × (d < 2) }
    ensures { (digits_of s.new ≡ set (digits_of s.old) p d) × Bytes s.new }
{
    let i = p / 8;
    s[i] = with_digit(s[i], 7 - p % 8, d);
}

// The byte b with d as the digit that is worth 2 to the k: the old digit is taken out, and d put in.
fn with_digit(b: u8, k: usize, d: u8) -> u8
    requires { (k < 8) × (d < 2) }
    ensures { result ≡ with_digit b k d }
{
    b - (((b >> k) % 2) << k) + (d << k)
}

// 1 for yes, 0 for no.
pub fn digit_of(t: bool) -> u8
    ensures { (result ≡ cond t 1 0) × (result < 2) }
{
    u8::from(t)
}

// The same as a number of 64 bits, as answers have it.
pub fn as_number(t: bool) -> u64
    ensures { result ≡ cond t 1 0 }
{
    u64::from(t)
}
