// Counting the wrong digits of a reading, up to 32 at a time: against the digits that were sent, or against the recurrence of a test pattern.
ghost use Rattle.std.specs.Prelude.{◌≡◌, ◌≢◌, List, ℕ, ◌+◌, ◌*◌, ◌<◌, ◌≤◌, length, take};
ghost use Rattle.digits.specs.Digits.{digits_of};
ghost use Rattle.judge.specs.Wrong.{stage_of, wrong_in};
ghost use Rattle.judge.specs.Counting.{wrong_among, Known};

// In how many of n places from p on, at most 32, a reading has another digit than was sent.
fn others_at(read: &[u8], sent: &[u8], p: usize, n: usize) -> usize
    requires { (p + n ≤ 8 * length read.now) × (p + n ≤ 8 * length sent.now) × (0 < n) × (n ≤ 32) }
    ensures { (wrong_among 0 (digits_of sent.now) (digits_of read.now) (p + n)
        ≡ wrong_among 0 (digits_of sent.now) (digits_of read.now) p + result)
        × (result ≤ n) }
{
    let differ = words::read_digits(read, p, n) ^ words::read_digits(sent, p, n);
    differ.count_ones() as usize
}

// The stage that a pattern feeds back with its last one.
fn stage_of(pattern: usize) -> usize
    ensures { result ≡ stage_of pattern }
{
    if pattern == 15 { 14 } else { 18 }
}

// How many of n digits, at most 32, are not what the recurrence makes, from digit p on behind the pattern's first: such a digit is the sum of the two
// stages without carry, which the inverted pattern never has.
fn unmade_at(read: &[u8], pattern: usize, p: usize, n: usize) -> usize
    requires { (pattern ≢ 0) × Known pattern × (p ≤ 65536) × (pattern + p + n ≤ 8 * length read.now) × (0 < n) × (n ≤ 32) }
    ensures { ((sent : List ℕ) → wrong_among pattern sent (digits_of read.now) (p + n) ≡ wrong_among pattern sent (digits_of read.now) p + result)
        × (result ≤ n) }
{
    let stage = pattern + p - stage_of(pattern);
    let sum = words::read_digits(read, stage, n) ^ words::read_digits(read, p, n);
    let made = words::read_digits(read, pattern + p, n) ^ sum;
    n - made.count_ones() as usize
}

// How many of n digits, at most 32, are wrong, from digit p on behind the pattern's first.
fn wrong_at(pattern: usize, sent: &[u8], read: &[u8], p: usize, n: usize) -> usize
    requires { Known pattern
        × (pattern ≡ 0 → p + n ≤ 8 * length sent.now)
        × (p ≤ 65536)
        × (pattern + p + n ≤ 8 * length read.now)
        × (0 < n)
        × (n ≤ 32) }
    ensures { (wrong_among pattern (digits_of sent.now) (digits_of read.now) (p + n)
        ≡ wrong_among pattern (digits_of sent.now) (digits_of read.now) p + result)
        × (result ≤ n) }
{
    if pattern == 0 {
        others_at(read, sent, p, n)
    } else {
        unmade_at(read, pattern, p, n)
    }
}

// Of the n digits behind the pattern's first.
fn count_wrong(pattern: usize, sent: &[u8], read: &[u8], n: usize) -> usize
    requires { Known pattern
        × (pattern ≡ 0 → n ≤ 8 * length sent.now)
        × (pattern + n ≤ 8 * length read.now)
        × (n ≤ 65536) }
    ensures { result ≡ wrong_among pattern (digits_of sent.now) (digits_of read.now) n }
{
    let mut wrong = 0;
    for p in (0..n).step_by(32) {
        wrong += wrong_at(pattern, sent, read, p, (n - p).min(32));
    }
    wrong
}

// The wrong digits of a reading of n digits.
pub fn wrong_in(pattern: usize, sent: &[u8], read: &[u8], n: usize) -> usize
    requires { (n ≤ 8 * length read.now)
        × (n ≤ 65536)
        × Known pattern
        × (pattern ≡ 0 → n ≤ 8 * length sent.now) }
    ensures { result ≡ wrong_in pattern (digits_of sent.now) (take n (digits_of read.now)) }
{
    if n <= pattern {
        0
    } else {
        count_wrong(pattern, sent, read, n - pattern)
    }
}
