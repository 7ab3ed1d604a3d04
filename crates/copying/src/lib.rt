// Digits carried from slice to slice, wherever in a byte they stand: up to 32 a turn, on slices of any length. A place that moves is a byte and a digit of it, so
// that no sum is too large for a number. specs/Copying.antt says which digit stands where afterwards.
#![tactic(auto)]

ghost use Rattle.std.specs.Prelude.{◌≡◌, ◌++◌, ◌+◌, ◌*◌, ◌-◌, ◌^◌, ◌≤◌, ◌<◌, leb, length, drop};
ghost use Rattle.digits.specs.Digits.{digits_of, written};
ghost use Rattle.refusal.specs.Refusal.{refusal_in};
ghost use Rattle.words.specs.Words.{Ready, out_from, Appended};
ghost use Rattle.copying.specs.Copying.{digits_from, Begun, CopyMet};

use refusal::Refusal;
use words::Writer;

// Whether a slice of so many bytes has count digits from its digit `first` on: the bytes in which they end are counted, which is exact for every two numbers.
pub fn has_digits(bytes: usize, first: usize, count: usize) -> bool
    ensures { result ≡ leb (first + count) (8 * bytes) }
{
    first / 8 + count / 8 + (first % 8 + count % 8 + 7) / 8 <= bytes
}

// n digits, at most 32, from digit p of a byte on, as a number; of none, 0.
fn word_at(s: &[u8], byte: usize, p: usize, n: usize) -> u64
    requires { (8 * byte + p + n ≤ 8 * length s.now) × (n ≤ 32) }
    ensures { (written n result ≡ digits_from s.now (8 * byte + p) n) × (result < 2 ^ n) }
{
    if n == 0 {
        0
    } else {
        words::read_digits(&s[byte..], p, n)
    }
}

// A writer at digit `at`, which holds the digits before it of its byte.
fn begin(to: &[u8], at: usize) -> Writer
    requires { at ≤ 8 * length to.now }
    ensures { Begun to.now at result }
{
    let byte = at / 8;
    let fill = at % 8;
    let held = word_at(to, byte, 0, fill);
    Writer {
        at: byte,
        held,
        fill,
    }
}

// Appends count digits of `from`, its digit first and on, 32 a turn.
fn append(to: &mut [u8], begun: Writer, from: &[u8], first: usize, count: usize) -> Writer
    requires { Ready begun.fill begun.held
        × (8 * begun.at + (begun.fill + count) ≤ 8 * length to.old)
        × (first + count ≤ 8 * length from.now) }
    ensures { Appended to.old to.new begun result count (digits_from from.now first count) }
{
    let byte = first / 8;
    let p = first % 8;
    let mut w = begun;
    for turn in 0..count / 32 {
        let word = word_at(from, byte + 4 * turn, p, 32);
        w = words::put(to, w, word, 32);
    }
    let left = count % 32;
    let word = word_at(from, byte + 4 * (count / 32), p, left);
    words::put(to, w, word, left)
}

// The rest of the byte in which a writer stands goes out as it was, and nothing stays held.
fn close(to: &mut [u8], w: Writer)
    requires { Ready w.fill w.held × (8 * w.at + w.fill ≤ 8 * length to.old) }
    ensures { digits_of to.new ≡ out_from 0 to.old w ++ drop (8 * w.at + w.fill) (digits_of to.old) }
{
    let byte = w.at + w.fill / 8;
    let p = w.fill % 8;
    let rest = (8 - p) % 8;
    let word = word_at(to, byte, p, rest);
    let closed = words::put(to, w, word, rest);
    words::finish(to, closed);
}

// Puts count digits of `from`, its digit first and on, in place of those of `to` at digit `at` and on.
pub fn copy_digits(
    to: &mut [u8],
    at: usize,
    from: &[u8],
    first: usize,
    count: usize,
) -> Result<(), Refusal>
    ensures { CopyMet to.old at from.now first count (refusal_in result) to.new }
{
    if !has_digits(to.len(), at, count) || !has_digits(from.len(), first, count) {
        return Err(Refusal::Digits);
    }
    let begun = begin(to, at);
    let w = append(to, begun, from, first, count);
    close(to, w);
    Ok(())
}
