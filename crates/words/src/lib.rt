// Digits by the word: a reader of up to 64 digits of a slice from any place on, as a number, and a writer that appends up to 32 digits
// at a time. specs/Words.antt says what a writer has put out; no crate above speaks of the bytes it stores or of the digits it holds.
#![tactic(auto)]

pub mod turning;

ghost use Rattle.std.specs.Prelude.{◌≡◌, [], ℕ, ◌+◌, ◌*◌, ◌-◌, ◌/◌, ◌%◌, ◌^◌, ◌<◌, ◌≤◌, length};
ghost use Rattle.std.proofs.lemmas.List.Edits.{sets};
ghost use Rattle.digits.specs.Digits.{digits_of, window_at, written};
ghost use Rattle.words.specs.Words.{four, Ready, Appended, Finished};

// Where a writer stands: the bytes before `at` are stored, and the `fill` digits that come next are held as a number. Digits go out in
// order, so a writer never reads what it overwrites.
#[derive(Clone, Copy)]
pub struct Writer {
    pub at: usize,
    pub held: u64,
    pub fill: usize,
}

// The 32 digits of four bytes as a number.
pub fn load4(s: &[u8], at: usize) -> u64
    requires { at + 4 ≤ length s.now }
    ensures { (result ≡ window_at (digits_of s.now) (8 * at) 32) × (result < 2 ^ 32) }
{
    u64::from(u32::from_be_bytes([s[at], s[at + 1], s[at + 2], s[at + 3]]))
}

// The 64 digits of eight bytes.
pub fn load8(s: &[u8], at: usize) -> u64
    requires { at + 8 ≤ length s.now }
    ensures { result ≡ window_at (digits_of s.now) (8 * at) 64 }
{
    (load4(s, at) << 32) | load4(s, at + 4)
}

// n digits from place p on, digit by digit: for a slice of fewer than eight bytes.
fn read_short(s: &[u8], p: usize, n: usize) -> u64
    requires { (p + n ≤ 8 * length s.now) × (n ≤ 32) × (length s.now < 8) }
    ensures { (result ≡ window_at (digits_of s.now) p n) × (result < 2 ^ n) }
{
    let mut r: u64 = 0;
    for k in 0..n {
        r = r * 2 + digits::digit_at(s, p + k) as u64;
    }
    r
}

// From which byte on to load eight, in a slice of so many, so that up to 32 digits from place p on are among them: at the slice's end
// the last eight.
fn load_from(bytes: usize, p: usize) -> usize
    requires { 8 ≤ bytes }
    ensures { (result + 8 ≤ bytes) × (8 * result ≤ p) × ((n : ℕ) → n ≤ 32 → p + n ≤ 8 * bytes → p + n ≤ 8 * result + 64) }
{
    (p / 8).min(bytes - 8)
}

// n digits from place p on, at most 32, as a number: the last of them is worth 1. The slice may have any length.
pub fn read_digits(s: &[u8], p: usize, n: usize) -> u64
    requires { (p + n ≤ 8 * length s.now) × (0 < n) × (n ≤ 32) }
    ensures { (result ≡ window_at (digits_of s.now) p n) × (result < 2 ^ n) }
{
    if s.len() < 8 {
        return read_short(s, p, n);
    }
    let at = load_from(s.len(), p);
    (load8(s, at) >> (64 - (p - 8 * at + n))) & ones(n)
}

// The 64 digits from place p on: in the middle of a byte the last of them are the first of a ninth byte.
pub fn read_word(s: &[u8], p: usize) -> u64
    requires { p + 64 ≤ 8 * length s.now }
    ensures { result ≡ window_at (digits_of s.now) p 64 }
{
    let at = p / 8;
    let k = p % 8;
    if k == 0 {
        load8(s, at)
    } else {
        (load8(s, at) << k) | ((s[at + 8] as u64) >> (8 - k))
    }
}

// n digits from place p on, at most 64.
pub fn read_wide(s: &[u8], p: usize, n: usize) -> u64
    requires { (p + n ≤ 8 * length s.now) × (p < 2 ^ 32) × (0 < n) × (n ≤ 64) }
    ensures { result ≡ window_at (digits_of s.now) p n }
{
    if n <= 32 {
        read_digits(s, p, n)
    } else {
        let m = n - 32;
        (read_digits(s, p, m) << 32) | read_digits(s, p + m, 32)
    }
}

// The last eight digits.
fn low_byte(x: u64) -> u8
    ensures { result ≡ x % 256 }
{
    (x & 255) as u8
}

// Four bytes from a number of 32 digits; every other byte stays.
pub fn store4(s: &mut [u8], at: usize, out: u64)
    requires { at + 4 ≤ length s.old }
    ensures { s.new ≡ sets s.old at (four out) }
{
    let bytes = ((out & 0xFFFF_FFFF) as u32).to_be_bytes();
    s[at..at + 4].copy_from_slice(&bytes);
}

// n ones.
pub fn ones(n: usize) -> u64
    requires { n ≤ 32 }
    ensures { result ≡ 2 ^ n - 1 }
{
    (1 << n) - 1
}

// Appends the n digits of a number, at most 32: they are held, or four bytes are stored.
pub fn put(s: &mut [u8], w: Writer, word: u64, n: usize) -> Writer
    requires { Ready w.fill w.held × (n ≤ 32) × (word < 2 ^ n) × (8 * w.at + (w.fill + n) ≤ 8 * length s.old) }
    ensures { Appended s.old s.new w result n (written n word) }
{
    let at = w.at;
    let all = (w.held << n) | word;
    let fill = w.fill + n;
    if fill < 32 {
        return Writer {
            at,
            held: all,
            fill,
        };
    }
    let rest = fill - 32;
    store4(s, at, all >> rest);
    Writer {
        at: at + 4,
        held: all & ones(rest),
        fill: rest,
    }
}

// The first eight digits held are stored as a byte.
fn store_first(s: &mut [u8], w: Writer) -> Writer
    requires { Ready w.fill w.held × (8 ≤ w.fill) × (w.at < length s.old) }
    ensures { Appended s.old s.new w result 0 [] × (result.fill + 8 ≡ w.fill) }
{
    let at = w.at;
    let rest = w.fill - 8;
    s[at] = low_byte(w.held >> rest);
    Writer {
        at: at + 1,
        held: w.held & ones(rest),
        fill: rest,
    }
}

// A writer's end: zeros up to the end of the byte it stands in, and nothing stays held.
pub fn finish(s: &mut [u8], w0: Writer) -> Writer
    requires { Ready w0.fill w0.held × (8 * w0.at + w0.fill ≤ 8 * length s.old) }
    ensures { Finished s.old s.new w0 result }
{
    let mut w = put(s, w0, 0, (8 - w0.fill % 8) % 8);
    while 0 < w.fill {
        w = store_first(s, w);
    }
    w
}

// How many of n the next turn takes that takes at most so many.
pub fn at_most(n: usize, most: usize) -> usize
    requires { (0 < n) × (0 < most) }
    ensures { (result ≤ n) × (result ≤ most) × (0 < result) }
{
    n.min(most)
}
