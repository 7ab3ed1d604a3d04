// Strides: many digits at a time, for the receiver and the finder. Where a word ends (`seek`), the window after many digits, and a copy of many
// digits (src/copies.rt). Nothing here knows a row, a mode or a frame: a word is its number of digits and its number.
#![tactic(auto)]

pub mod copies;

ghost use Rattle.std.specs.Prelude.{◌≡◌, true, ◌+◌, ◌*◌, ◌-◌, ◌%◌, ◌^◌, ◌<◌, ◌≤◌, min, length};
ghost use Rattle.digits.specs.Digits.{digits_of};
ghost use Rattle.strides.specs.Strides.{window_on, window_from, Word, Misses, Clear, Turn, Unmet, Passed};

pub fn lesser(a: usize, b: usize) -> usize
    ensures { result ≡ min a b }
{
    a.min(b)
}

// The window with one digit more.
fn window_on(len: usize, mask: usize, window: usize, d: u8) -> usize
    requires { (len ≤ 12) × (mask ≡ 2 ^ len - 1) × (window < 2 ^ len) × (d < 2) }
    ensures { result ≡ window_on len window d }
{
    (window * 2 + d as usize) & mask
}

// The window after the digits from one place to another: of many, the last 32 are enough.
pub fn window_over(
    len: usize,
    mask: usize,
    window: usize,
    piece: &[u8],
    first: usize,
    at: usize,
) -> usize
    requires { (len ≤ 12) × (mask ≡ 2 ^ len - 1) × (window < 2 ^ len) × (length piece.now ≤ 65536) × (first ≤ at) × (at ≤ 8 * length piece.now) }
    ensures { result ≡ window_from len (digits_of piece.now) first window (at - first) }
{
    if first == at {
        return window;
    }
    let n = (at - first).min(32);
    let v = ((window as u64) << n) | words::read_digits(piece, at - n, n);
    (v as usize) & mask
}

// One digit of the word more: a place at which it is another one misses the word.
fn miss_more(miss: u64, word: u64, v: u64, k: usize) -> u64
    requires { (k < 12) × Misses k word v miss }
    ensures { Misses (k + 1) word v result }
{
    miss | ((v ^ ((word >> k) % 2 * 18446744073709551615)) >> k)
}

// Where a word of 7 to 12 digits does not end: digit i of the answer is 0 exactly if the digits of v that end i digits before its last are the
// word. Written out, so that what of it depends on the word alone is made once for many turns.
fn misses(len: usize, word: u64, v: u64) -> u64
    requires { (7 ≤ len) × (len ≤ 12) }
    ensures { Misses len word v result }
{
    let one = miss_more(0, word, v, 0);
    let two = miss_more(one, word, v, 1);
    let three = miss_more(two, word, v, 2);
    let four = miss_more(three, word, v, 3);
    let five = miss_more(four, word, v, 4);
    let six = miss_more(five, word, v, 5);
    let seven = miss_more(six, word, v, 6);
    if len == 7 {
        return seven;
    }
    let eight = miss_more(seven, word, v, 7);
    if len == 8 {
        return eight;
    }
    let nine = miss_more(eight, word, v, 8);
    if len == 9 {
        return nine;
    }
    let ten = miss_more(nine, word, v, 9);
    if len == 10 {
        return ten;
    }
    let eleven = miss_more(ten, word, v, 10);
    if len == 11 {
        return eleven;
    }
    miss_more(eleven, word, v, 11)
}

// Whether the word ends at none of so many last digits of v; `ones` are as many ones.
fn is_clear(len: usize, word: u64, v: u64, places: usize, ones: u64) -> bool
    requires { (7 ≤ len) × (len ≤ 12) × (word < 2 ^ len) × (places + len ≤ 64) × (ones ≡ 2 ^ places - 1) }
    ensures { result ≡ true → Clear places len word v }
{
    misses(len, word, v) & ones == ones
}

// By so many digits: goes on while the word ends at none of them. Eight bytes tell of them and of those before them in which the first words
// began.
fn seek_by(
    len: usize,
    word: usize,
    places: usize,
    ones: u64,
    piece: &[u8],
    from: usize,
    end: usize,
) -> usize
    requires { Turn len word places ones × (length piece.now ≤ 65536) × (16 ≤ from) × (from % 8 ≡ 0) × (from < end) × (end ≤ 8 * length piece.now) }
    ensures { (from ≤ result) × (result < end) × Unmet len word (digits_of piece.now) from result }
{
    let mut at = from;
    // No `for`: the place at which it stops is the answer, and a range would not hand it out.
    while at + places < end {
        if !is_clear(
            len,
            word as u64,
            words::load8(piece, (at + places) / 8 - 8),
            places,
            ones,
        ) {
            return at;
        }
        at += places;
    }
    at
}

// By 48 digits, for which any word's beginning is among the 16 before them. The finder's word, 0011011, has it among eight: by 56 digits, and
// written out, so that the compiler makes code for these digits.
fn seek_far(len: usize, word: usize, piece: &[u8], from: usize, end: usize) -> usize
    requires { (7 ≤ len) × (len ≤ 12) × (word < 2 ^ len) × (length piece.now ≤ 65536) × (16 ≤ from) × (from % 8 ≡ 0) × (from < end) × (end ≤ 8 * length piece.now) }
    ensures { (from ≤ result) × (result < end) × Unmet len word (digits_of piece.now) from result }
{
    if len == 7 && word == 27 {
        seek_by(7, 27, 56, 72057594037927935, piece, from, end)
    } else {
        seek_by(len, word, 48, 281474976710655, piece, from, end)
    }
}

// Where it stands: the place of the next digit, and the window before it.
#[derive(Clone, Copy)]
pub struct Sought {
    pub window: usize,
    pub at: usize,
}

// By the digit: goes on while the window is not the word.
fn seek_near(
    len: usize,
    mask: usize,
    word: usize,
    window: usize,
    piece: &[u8],
    first: usize,
    last: usize,
) -> Sought
    requires { Word len mask word × (window < 2 ^ len) × (length piece.now ≤ 65536) × (first ≤ last) × (last < 8 * length piece.now) }
    ensures { Passed len word (digits_of piece.now) (last + 1) first window result.at result.window }
{
    let mut w = window;
    for at in first..last {
        let next = window_on(len, mask, w, digits::digit_at(piece, at));
        if next == word {
            return Sought { window: w, at };
        }
        w = next;
    }
    Sought {
        window: w,
        at: last,
    }
}

// Goes on from digit first to the digit at which the word ends, or to the last one before end: by the digit as far as words may end that began
// before, then by 48 digits or more, then by the digit.
pub fn seek(
    len: usize,
    mask: usize,
    word: usize,
    window: usize,
    piece: &[u8],
    first: usize,
    end: usize,
) -> Sought
    requires { Word len mask word × (window < 2 ^ len) × (length piece.now ≤ 65536) × (first < end) × (end ≤ 8 * length piece.now) }
    ensures { Passed len word (digits_of piece.now) end first window result.at result.window }
{
    let last = end - 1;
    let start = (first + 23) / 8 * 8;
    let near = seek_near(len, mask, word, window, piece, first, start.min(last));
    if near.at < start {
        return near;
    }
    let far = seek_far(len, word, piece, near.at, end);
    let w = window_over(len, mask, near.window, piece, near.at, far);
    seek_near(len, mask, word, w, piece, far, last)
}
