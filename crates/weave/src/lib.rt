// Four tributaries into one line, whole bytes at a time: a table spreads eight digits of a tributary over 32 digits of the line. Which
// columns of a line are woven so, and which are not, the crates above know.
#![tactic(auto)]

pub mod table;

ghost use Rattle.std.specs.Prelude.{◌≡◌, ◌+◌, ◌*◌, ◌/◌, ◌%◌, ◌^◌, ◌<◌, ◌≤◌, length};
ghost use Rattle.digits.specs.Digits.{digits_of, tab, written};
ghost use Rattle.words.specs.Words.{Ready, Appended};
ghost use Rattle.weave.specs.Weave.{spread_of, weave_of, moved_on, woven, Has};

use words::Writer;

// Each tributary's next digit, as a place in its quarter.
#[derive(Clone, Copy)]
pub struct Next {
    pub a: usize,
    pub b: usize,
    pub c: usize,
    pub d: usize,
}

// Each tributary n digits on.
pub fn moved_on(i: Next, n: usize) -> Next
    requires { (i.a + n < 2 ^ 32) × (i.b + n < 2 ^ 32) × (i.c + n < 2 ^ 32) × (i.d + n < 2 ^ 32) }
    ensures { result ≡ moved_on i n }
{
    Next {
        a: i.a + n,
        b: i.b + n,
        c: i.c + n,
        d: i.d + n,
    }
}

// One entry of the table.
pub fn spread(table: &[u32; 256], x: u64) -> u64
    requires { (table.now ≡ tab 256 0 (spread_of 8)) × (x < 256) }
    ensures { (result ≡ spread_of 8 x) × (15 * result < 2 ^ 32) }
{
    u64::from(table[x as usize])
}

// Eight columns from eight digits of each tributary; fewer columns from fewer digits.
fn weave(table: &[u32; 256], a: u64, b: u64, c: u64, d: u64) -> u64
    requires { (table.now ≡ tab 256 0 (spread_of 8)) × (a < 256) × (b < 256) × (c < 256) × (d < 256) }
    ensures { (result ≡ weave_of a b c d) × (result < 2 ^ 32) }
{
    spread(table, a) * 8 + spread(table, b) * 4 + spread(table, c) * 2 + spread(table, d)
}

// The eight digits of x that are worth 2 to the k and more.
fn eight_at(x: u64, k: usize) -> u64
    requires { k < 32 }
    ensures { (result ≡ x / 2 ^ k % 2 ^ 8) × (result < 256) }
{
    (x >> k) & 255
}

// Eight of 32 columns: from those digits of each tributary that are worth 2 to the k and more.
fn send_eight(
    table: &[u32; 256],
    line: &mut [u8],
    w: Writer,
    a: u64,
    b: u64,
    c: u64,
    d: u64,
    k: usize,
) -> Writer
    requires { (table.now ≡ tab 256 0 (spread_of 8))
        × Ready w.fill w.held
        × (8 * w.at + (w.fill + 32) ≤ 8 * length line.old)
        × (k < 32) }
    ensures { Appended line.old line.new w result 32
        (written 32 (weave_of (a / 2 ^ k % 2 ^ 8) (b / 2 ^ k % 2 ^ 8) (c / 2 ^ k % 2 ^ 8) (d / 2 ^ k % 2 ^ 8))) }
{
    words::put(
        line,
        w,
        weave(
            table,
            eight_at(a, k),
            eight_at(b, k),
            eight_at(c, k),
            eight_at(d, k),
        ),
        32,
    )
}

// 32 columns.
fn send_many(
    table: &[u32; 256],
    line: &mut [u8],
    a: &[u8],
    b: &[u8],
    c: &[u8],
    d: &[u8],
    w: Writer,
    i: Next,
) -> Writer
    requires { (table.now ≡ tab 256 0 (spread_of 8))
        × Ready w.fill w.held
        × (8 * w.at + (w.fill + 128) ≤ 8 * length line.old)
        × Has a.now b.now c.now d.now i 32 }
    ensures { Appended line.old line.new w result 128
        (woven 32 (digits_of a.now) (digits_of b.now) (digits_of c.now) (digits_of d.now) i) }
{
    let x = words::read_digits(a, i.a, 32);
    let y = words::read_digits(b, i.b, 32);
    let z = words::read_digits(c, i.c, 32);
    let t = words::read_digits(d, i.d, 32);
    let w1 = send_eight(table, line, w, x, y, z, t, 24);
    let w2 = send_eight(table, line, w1, x, y, z, t, 16);
    let w3 = send_eight(table, line, w2, x, y, z, t, 8);
    send_eight(table, line, w3, x, y, z, t, 0)
}

// Up to eight columns: from those digits of each tributary that are worth 2 to the k and more, no more of them than columns.
fn send_first(
    table: &[u32; 256],
    line: &mut [u8],
    w: Writer,
    a: u64,
    b: u64,
    c: u64,
    d: u64,
    k: usize,
    n: usize,
) -> Writer
    requires { (table.now ≡ tab 256 0 (spread_of 8))
        × Ready w.fill w.held
        × (8 * w.at + (w.fill + 4 * n) ≤ 8 * length line.old)
        × (k < 64)
        × (n ≤ 8)
        × (a / 2 ^ k < 2 ^ n)
        × (b / 2 ^ k < 2 ^ n)
        × (c / 2 ^ k < 2 ^ n)
        × (d / 2 ^ k < 2 ^ n) }
    ensures { Appended line.old line.new w result (4 * n) (written (4 * n) (weave_of (a / 2 ^ k) (b / 2 ^ k) (c / 2 ^ k) (d / 2 ^ k))) }
{
    words::put(line, w, weave(table, a >> k, b >> k, c >> k, d >> k), 4 * n)
}

// Columns by 32, as many as they make whole.
fn send_wide(
    table: &[u32; 256],
    line: &mut [u8],
    a: &[u8],
    b: &[u8],
    c: &[u8],
    d: &[u8],
    w0: Writer,
    i: Next,
    columns: usize,
) -> Writer
    requires { (table.now ≡ tab 256 0 (spread_of 8))
        × Ready w0.fill w0.held
        × (8 * w0.at + (w0.fill + 4 * columns) ≤ 8 * length line.old)
        × (columns % 32 ≡ 0)
        × Has a.now b.now c.now d.now i columns }
    ensures { Appended line.old line.new w0 result (4 * columns)
        (woven columns (digits_of a.now) (digits_of b.now) (digits_of c.now) (digits_of d.now) i) }
{
    let mut w = w0;
    for k in (0..columns).step_by(32) {
        w = send_many(table, line, a, b, c, d, w, moved_on(i, k));
    }
    w
}

// Up to 32 columns: the digits of each tributary are read once, then the first few columns are sent, so that the others are eights.
fn send_narrow(
    table: &[u32; 256],
    line: &mut [u8],
    a: &[u8],
    b: &[u8],
    c: &[u8],
    d: &[u8],
    w0: Writer,
    i: Next,
    columns: usize,
) -> Writer
    requires { (table.now ≡ tab 256 0 (spread_of 8))
        × Ready w0.fill w0.held
        × (8 * w0.at + (w0.fill + 4 * columns) ≤ 8 * length line.old)
        × (columns ≤ 32)
        × Has a.now b.now c.now d.now i columns }
    ensures { Appended line.old line.new w0 result (4 * columns)
        (woven columns (digits_of a.now) (digits_of b.now) (digits_of c.now) (digits_of d.now) i) }
{
    if columns == 0 {
        return w0;
    }
    let x = words::read_digits(a, i.a, columns);
    let y = words::read_digits(b, i.b, columns);
    let z = words::read_digits(c, i.c, columns);
    let t = words::read_digits(d, i.d, columns);
    let first = columns % 8;
    let mut w = send_first(table, line, w0, x, y, z, t, columns - first, first);
    for eight in (0..columns / 8).rev() {
        w = send_eight(table, line, w, x, y, z, t, 8 * eight);
    }
    w
}

// The columns between two heads: from the four quarters, each from its tributary's next digit on.
pub fn send_columns(
    table: &[u32; 256],
    line: &mut [u8],
    a: &[u8],
    b: &[u8],
    c: &[u8],
    d: &[u8],
    w: Writer,
    i: Next,
    columns: usize,
) -> Writer
    requires { (table.now ≡ tab 256 0 (spread_of 8))
        × Ready w.fill w.held
        × (8 * w.at + (w.fill + 4 * columns) ≤ 8 * length line.old)
        × Has a.now b.now c.now d.now i columns }
    ensures { Appended line.old line.new w result (4 * columns)
        (woven columns (digits_of a.now) (digits_of b.now) (digits_of c.now) (digits_of d.now) i) }
{
    let last = columns % 32;
    let wide = columns - last;
    let half = send_wide(table, line, a, b, c, d, w, i, wide);
    send_narrow(table, line, a, b, c, d, half, moved_on(i, wide), last)
}
