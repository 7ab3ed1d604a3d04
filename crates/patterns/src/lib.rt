// The test patterns (specs/Patterns.antt): the digit that comes next, the window moved on, the digits from a window on, and whether a reading's are those.
#![tactic(auto)]

ghost use Rattle.std.specs.Prelude.{◌≡◌, true, cond, ℕ, ◌-◌, ◌*◌, ◌/◌, ◌%◌, ◌^◌, ◌<◌, ◌≤◌, eqb, length, get_or};
ghost use Rattle.std.specs.Int.Bits.{bit_xor};
ghost use Rattle.digits.specs.Digits.{digits_of};
ghost use Rattle.patterns.specs.Patterns.{OneOfTwo, stage_of, made_of, pushed, window_after, pattern_digits};

use judge::wrong;

// The inverted sum of two digits without carry: 1 where they are the same.
fn one_if_same(a: u64, b: u64) -> u64
    ensures { (result ≡ cond (eqb a b) 1 0) × (result ≤ 1) }
{
    u64::from(a == b)
}

// The digit that comes next.
pub fn made_of(pattern: u64, window: u64) -> u64
    requires { OneOfTwo pattern }
    ensures { (result ≡ made_of pattern window) × (result ≤ 1) }
{
    if pattern == 15 {
        one_if_same((window >> 13) % 2, (window >> 14) % 2)
    } else {
        one_if_same((window >> 17) % 2, (window >> 22) % 2)
    }
}

// The window after one digit more.
pub fn push(window: u64, d: u64) -> u64
    requires { (window < 2 ^ 23) × (d ≤ 1) }
    ensures { (result ≡ pushed window d) × (result < 2 ^ 23) }
{
    (window * 2 + d) % 8388608
}

// The eight digits that come next, as a number: those that the sum of the two stages without carry has not.
fn eight_of(pattern: u64, window: u64) -> u64
    requires { OneOfTwo pattern }
    ensures { (result ≡ 255 - bit_xor (window / 2 ^ (stage_of pattern - 8)) (window / 2 ^ (pattern - 8)) % 256) × (result ≤ 255) }
{
    if pattern == 15 {
        255 - ((window >> 6) ^ (window >> 7)) % 256
    } else {
        255 - ((window >> 10) ^ (window >> 15)) % 256
    }
}

// The window moved on by eight digits of the pattern.
fn push_eight(pattern: u64, window: u64) -> u64
    requires { OneOfTwo pattern × (window < 2 ^ 23) }
    ensures { (result ≡ window_after pattern window 8) × (result < 2 ^ 23) }
{
    (window * 256 + eight_of(pattern, window)) % 8388608
}

// The same n times.
fn push_eights(pattern: u64, window: u64, n: u64) -> u64
    requires { OneOfTwo pattern × (window < 2 ^ 23) }
    ensures { (result ≡ window_after pattern window (n * 8)) × (result < 2 ^ 23) }
{
    let mut w = window;
    for _ in 0..n {
        w = push_eight(pattern, w);
    }
    w
}

// The window moved on by n digits of the pattern.
pub fn window_after(pattern: u64, window: u64, n: u64) -> u64
    requires { OneOfTwo pattern × (window < 2 ^ 23) }
    ensures { (result ≡ window_after pattern window n) × (result < 2 ^ 23) }
{
    let mut w = push_eights(pattern, window, n / 8);
    for _ in 0..n % 8 {
        w = push(w, made_of(pattern, w));
    }
    w
}

// Whether the n digits of a reading are the pattern's from a window on: the first 23 are the window, and the others follow the recurrence.
pub fn is_made(pattern: u64, window: u64, read: &[u8], n: usize) -> bool
    requires { OneOfTwo pattern × (window < 2 ^ 23) × (n ≤ 8 * length read.now) × (n ≤ 65536) }
    ensures { result ≡ true
        → (23 ≤ n) × ((j : ℕ) → j < n → get_or (digits_of read.now) j 0 ≡ window_after pattern window j / 2 ^ 22 % 2) }
{
    23 <= n
        && words::read_digits(read, 0, 23) == window
        && wrong::wrong_in(pattern as usize, read, read, n) == 0
}

// The window n digits on, where the n digits of a reading are the pattern's from the window's ninth digit on: their last 23, moved on by the other fifteen.
pub fn window_behind(pattern: u64, window: u64, read: &[u8], n: usize) -> u64
    requires { OneOfTwo pattern
        × (window < 2 ^ 23)
        × (n ≤ 8 * length read.now)
        × (23 ≤ n)
        × ((j : ℕ) → j < n → get_or (digits_of read.now) j 0 ≡ window_after pattern (window_after pattern window 8) j / 2 ^ 22 % 2) }
    ensures { result ≡ window_after pattern window n }
{
    window_after(pattern, words::read_digits(read, n - 23, 23), 15)
}

// The 1024 digits from a window on.
pub fn write_pattern(dst: &mut [u8], pattern: u64, window: u64)
    requires { (length dst.old ≡ 128) × OneOfTwo pattern × (window < 2 ^ 23) }
    ensures { digits_of dst.new ≡ pattern_digits pattern window }
{
    let mut w = window;
    for byte in dst.iter_mut() {
        *byte = (w >> 15) as u8;
        w = push_eight(pattern, w);
    }
}
