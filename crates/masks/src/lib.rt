// Differing digits by the word. The digits of two lines side by side are one number, with a one where they differ, and its ones are counted: those of a
// stretch of one kind all together, those of columns by tributary, which a mask keeps apart. Columns are added up in groups of four digits, one group to
// a column, so that up to fifteen turns need no carry; then the groups are added up at once. specs/Masks.antt says what each number is. A crate of its own below `differing`, so that
// each of the two is checked quickly.
#![tactic(auto)]

ghost use Rattle.std.specs.Prelude.{◌≡◌, ℕ, ◌+◌, ◌*◌, ◌/◌, ◌^◌, ◌<◌, ◌≤◌, min, length, get_or};
ghost use Rattle.std.specs.Int.Bits.{bit_and};
ghost use Rattle.masks.specs.Masks.{differing, EVERY, nibbles, Even, all_from, columns_of, added, added_four, by_four, Held};

// A number, or the most it may be.
pub fn at_most(n: usize, most: usize) -> usize
    ensures { result ≡ min n most }
{
    n.min(most)
}

// A one in each of fourteen groups of four digits.
const EVERY: u64 = 0x11111111111111;

// The lower group of each of seven pairs.
const LOWER: u64 = 0x0F0F0F0F0F0F0F;

// The differing digits of so many columns, a number to a tributary: group by group what was added up.
#[derive(Clone, Copy)]
pub struct Lanes {
    pub first: u64,
    pub second: u64,
    pub third: u64,
    pub fourth: u64,
    pub columns: usize,
}

// Up to 32 digits from place p on.
fn few(one: &[u8], other: &[u8], p: usize, n: usize) -> u64
    requires { Even one.now other.now × (p + n ≤ 8 * length one.now) × (0 < n) × (n ≤ 32) }
    ensures { result ≡ differing one.now other.now p n }
{
    words::read_digits(one, p, n) ^ words::read_digits(other, p, n)
}

// 56 digits from place p on, where the lines have 64.
fn many(one: &[u8], other: &[u8], p: usize) -> u64
    requires { Even one.now other.now × (p + 64 ≤ 8 * length one.now) }
    ensures { result ≡ differing one.now other.now p 56 }
{
    let at = p / 8;
    ((words::load8(one, at) ^ words::load8(other, at)) >> (8 - p % 8)) & 0xFFFFFFFFFFFFFF
}

// n columns more, whose differing digits are x.
fn more(l: Lanes, x: u64, n: usize) -> Lanes
    requires { (l.first < 2 ^ 60) × (l.second < 2 ^ 60) × (l.third < 2 ^ 60) × (l.fourth < 2 ^ 60) × (l.columns + n < 2 ^ 60) }
    ensures { result
        ≡ record {
          first = l.first + bit_and (x / 2 ^ 3) EVERY;
          second = l.second + bit_and (x / 2 ^ 2) EVERY;
          third = l.third + bit_and (x / 2 ^ 1) EVERY;
          fourth = l.fourth + bit_and (x / 2 ^ 0) EVERY;
          columns = l.columns + n;
        } }
{
    Lanes {
        first: l.first + ((x >> 3) & EVERY),
        second: l.second + ((x >> 2) & EVERY),
        third: l.third + ((x >> 1) & EVERY),
        fourth: l.fourth + ((x >> 0) & EVERY),
        columns: l.columns + n,
    }
}

// The groups of a number, none over fifteen, added up: pairs first, and then all pairs by the remainder, since 256 leaves 1.
fn group_sum(y: u64) -> usize
    ensures { (result ≡ nibbles 14 y) × (result < 256) }
{
    (((y & LOWER) + ((y >> 4) & LOWER)) % 255) as usize
}

// As many columns of k from place p on as go by fourteen: fewer than sixteen are left.
fn by_fourteen(one: &[u8], other: &[u8], p: usize, k: usize) -> Lanes
    requires { Even one.now other.now × (p + 4 * k ≤ 8 * length one.now) × (k ≤ 192) }
    ensures { Held one.now other.now p result.columns 13 result × (result.columns ≤ k) × (k < result.columns + 16) }
{
    let mut l = Lanes {
        first: 0,
        second: 0,
        third: 0,
        fourth: 0,
        columns: 0,
    };
    // eight bytes are read for fourteen columns, so that a turn needs sixteen
    for turn in 0..k.saturating_sub(2) / 14 {
        let x = many(one, other, p + 56 * turn);
        l = more(l, x, 14);
    }
    l
}

// Up to eight columns more of k.
fn by_eight(one: &[u8], other: &[u8], p: usize, k: usize, l: Lanes, t: usize) -> Lanes
    requires { Even one.now other.now
        × (p + 4 * k ≤ 8 * length one.now)
        × (k ≤ 192)
        × (t < 15)
        × (l.columns ≤ k)
        × Held one.now other.now p l.columns t l }
    ensures { Held one.now other.now p result.columns (t + 1) result
        × (result.columns ≤ k)
        × (k ≤ l.columns + 8 → result.columns ≡ k)
        × (l.columns + 8 ≤ k → result.columns ≡ l.columns + 8) }
{
    if l.columns == k {
        return l;
    }
    let n = at_most(k - l.columns, 8);
    let x = few(one, other, p + 4 * l.columns, 4 * n);
    more(l, x, n)
}

// What differs in the places of each tributary goes to its own of four sums: every third one from `base` on.
fn add_four(sums: &mut [usize; 15], base: usize, a: usize, b: usize, c: usize, d: usize)
    requires { (base ≤ 5) × ((k : ℕ) → get_or sums.old k 0 < 2 ^ 62) × (a < 256) × (b < 256) × (c < 256) × (d < 256) }
    ensures { sums.new ≡ added_four sums.old base (by_four a b c d) }
{
    sums[base] += a;
    sums[base + 3] += b;
    sums[base + 6] += c;
    sums[base + 9] += d;
}

// k columns from place p on, at most 192: what differs in the places of each tributary.
pub fn count_columns(
    one: &[u8],
    other: &[u8],
    p: usize,
    k: usize,
    base: usize,
    sums: &mut [usize; 15],
)
    requires { Even one.now other.now
        × (p + 4 * k ≤ 8 * length one.now)
        × (k ≤ 192)
        × (base ≤ 5)
        × ((k : ℕ) → get_or sums.old k 0 < 2 ^ 62) }
    ensures { sums.new ≡ added_four sums.old base (λ (j : ℕ). columns_of one.now other.now p j k) }
{
    let most = by_fourteen(one, other, p, k);
    let next = by_eight(one, other, p, k, most, 13);
    let all = by_eight(one, other, p, k, next, 14);
    add_four(
        sums,
        base,
        group_sum(all.first),
        group_sum(all.second),
        group_sum(all.third),
        group_sum(all.fourth),
    );
}

// One column.
pub fn count_column(one: &[u8], other: &[u8], p: usize, base: usize, sums: &mut [usize; 15])
    requires { Even one.now other.now
        × (p + 4 ≤ 8 * length one.now)
        × (base ≤ 5)
        × ((k : ℕ) → get_or sums.old k 0 < 2 ^ 62) }
    ensures { sums.new ≡ added_four sums.old base (λ (j : ℕ). columns_of one.now other.now p j 1) }
{
    let x = few(one, other, p, 4);
    add_four(
        sums,
        base,
        (x / 8 % 2) as usize,
        (x / 4 % 2) as usize,
        (x / 2 % 2) as usize,
        (x % 2) as usize,
    );
}

// k columns, which are mostly one.
pub fn count_few(one: &[u8], other: &[u8], p: usize, k: usize, base: usize, sums: &mut [usize; 15])
    requires { Even one.now other.now
        × (p + 4 * k ≤ 8 * length one.now)
        × (k ≤ 192)
        × (base ≤ 5)
        × ((k : ℕ) → get_or sums.old k 0 < 2 ^ 62) }
    ensures { sums.new ≡ added_four sums.old base (λ (j : ℕ). columns_of one.now other.now p j k) }
{
    if k == 1 {
        count_column(one, other, p, base, sums)
    } else {
        count_columns(one, other, p, k, base, sums)
    }
}

// n places of one sum from place p on, at most 32.
pub fn count_kind(one: &[u8], other: &[u8], p: usize, n: usize, m: usize, sums: &mut [usize; 15])
    requires { Even one.now other.now
        × (p + n ≤ 8 * length one.now)
        × (n ≤ 32)
        × (m < 15)
        × ((k : ℕ) → get_or sums.old k 0 < 2 ^ 62) }
    ensures { sums.new ≡ added sums.old m (all_from one.now other.now p n) }
{
    if n == 0 {
        return;
    }
    let x = few(one, other, p, n);
    sums[m] += u64::count_ones(x) as usize;
}
