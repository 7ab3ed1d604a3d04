// The zeros among the digits of a part of a slice: by whole bytes, and one by one where the part begins or ends inside a byte.
ghost use Rattle.std.specs.Prelude.{◌≡◌, ◌+◌, ◌*◌, ◌-◌, ◌≤◌, length};
ghost use Rattle.digits.specs.Digits.{between, zeros_in};

// The zeros among the digits from first on and before end, one by one.
fn zeros_by_digit(s: &[u8], first: usize, end: usize) -> usize
    requires { (first ≤ end) × (end ≤ 8 * length s.now) × (length s.now ≤ 65536) }
    ensures { (result ≡ zeros_in (between s.now first end)) × (result ≤ end - first) }
{
    let mut zeros: usize = 0;
    for p in first..end {
        zeros += 1 - usize::from(crate::digit_at(s, p));
    }
    zeros
}

// The zeros among the digits of whole bytes. Sixteen digits are enough for their ones, and a machine adds up many such numbers at once.
fn zeros_by_byte(s: &[u8], from: usize, to: usize) -> usize
    requires { (from ≤ to) × (to ≤ length s.now) × (length s.now ≤ 65536) × (to ≤ from + 4096) }
    ensures { (result ≡ zeros_in (between s.now (8 * from) (8 * to))) × (result ≤ 8 * to - 8 * from) }
{
    let mut ones: u16 = 0;
    for byte in &s[from..to] {
        ones += byte.count_ones() as u16;
    }
    8 * (to - from) - usize::from(ones)
}

// The zeros among the digits from first on and before end, of which there may be 32,768.
pub fn zeros_in(s: &[u8], first: usize, end: usize) -> usize
    requires { (first ≤ end) × (end ≤ 8 * length s.now) × (length s.now ≤ 65536) × (end ≤ first + 32768) }
    ensures { (result ≡ zeros_in (between s.now first end)) × (result ≤ end - first) }
{
    let from = (first + 7) / 8;
    let to = end / 8;
    if to <= from {
        return zeros_by_digit(s, first, end);
    }
    let before = zeros_by_digit(s, first, 8 * from);
    let whole = zeros_by_byte(s, from, to);
    let after = zeros_by_digit(s, 8 * to, end);
    before + whole + after
}
