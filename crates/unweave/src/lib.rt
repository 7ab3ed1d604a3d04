// A line taken apart, whole bytes at a time: the columns between two heads, up to 32 a turn, and the justification columns. Each tributary has
// a writer of its own, to which its quarter of the buffer is lent.
#![tactic(auto)]

pub mod sorting;

ghost use Rattle.std.specs.Prelude.{◌≡◌, ℕ, ◌+◌, ◌*◌, ◌-◌, ◌/◌, ◌%◌, ◌^◌, ◌<◌, ◌≤◌, length};
ghost use Rattle.digits.specs.Digits.{digits_of, written};
ghost use Rattle.levels.specs.Table.{Shared};
ghost use Rattle.levels.specs.Order.{acts_by};
ghost use Rattle.unweave.specs.Lanes.{run_digits, column_digits, kind_digits, head_digits, set_digits};
ghost use Rattle.unweave.specs.Quarters.{writer_of, number_of, Below, Numbered, Within, Roomy, RunAsked, Put, Grown};

use levels::places::{At, FramePlace, Kind};
use levels::{lent, order, places};
use table::{CONTROL_END, Row};
use words::{Writer, turning};

// The tributaries' writers, in order.
#[derive(Clone, Copy)]
pub struct Writers {
    pub a: Writer,
    pub b: Writer,
    pub c: Writer,
    pub d: Writer,
}

// Appends the n digits of a word to those of tributary j (from 0), whose quarter of q bytes is lent to its writer.
fn put_quarter(buffer: &mut [u8], q: usize, j: usize, w: Writer, word: u64, n: usize) -> Writer
    requires { (4 * q ≤ length buffer.old) × (j < 4) × (n ≤ 32) × (word < 2 ^ n) × Within q n w }
    ensures { Put q j buffer.old buffer.new w result (written n word) }
{
    let a = j * q;
    let e = a + q;
    words::put(&mut buffer[a..e], w, word, n)
}

// The tributaries' digits, in order, each as a number.
#[derive(Clone, Copy)]
struct Columns {
    a: u64,
    b: u64,
    c: u64,
    d: u64,
}

// Appends n digits to those of each tributary.
fn put_four(buffer: &mut [u8], q: usize, w: Writers, x: Columns, n: usize) -> Writers
    requires { (4 * q ≤ length buffer.old) × (n ≤ 32) × Below n x × Roomy q (λ (j : ℕ). n) w }
    ensures { Grown q buffer.old buffer.new w result (λ (j : ℕ). written n (number_of x j)) }
{
    let a = put_quarter(buffer, q, 0, w.a, x.a, n);
    let b = put_quarter(buffer, q, 1, w.b, x.b, n);
    let c = put_quarter(buffer, q, 2, w.c, x.c, n);
    let d = put_quarter(buffer, q, 3, w.d, x.d, n);
    Writers { a, b, c, d }
}

// Fewer than sixteen columns from place p of the line on, each tributary's digits as a number.
fn few_columns(line: &[u8], p: usize, n: usize) -> Columns
    requires { (p + 4 * n ≤ 8 * length line.now) × (p < 2 ^ 31) × (0 < n) × (n < 16) }
    ensures { Numbered (digits_of line.now) p n result }
{
    let rows = turning::from_columns(words::read_wide(line, p, 4 * n));
    let a = sorting::last_of(rows, 0, n);
    let b = sorting::last_of(rows, 1, n);
    let c = sorting::last_of(rows, 2, n);
    let d = sorting::last_of(rows, 3, n);
    Columns { a, b, c, d }
}

// Sixteen columns or more from place p of the line on, up to 32: the first sixteen and the last sixteen, which may have some in common.
fn many_columns(line: &[u8], p: usize, n: usize) -> Columns
    requires { (p + 4 * n ≤ 8 * length line.now) × (p < 2 ^ 31) × (16 ≤ n) × (n ≤ 32) }
    ensures { Numbered (digits_of line.now) p n result }
{
    let more = n - 16;
    let first = turning::from_columns(words::read_word(line, p));
    let last = turning::from_columns(words::read_word(line, p + 4 * more));
    let a = sorting::both_of(first, last, 0, more);
    let b = sorting::both_of(first, last, 1, more);
    let c = sorting::both_of(first, last, 2, more);
    let d = sorting::both_of(first, last, 3, more);
    Columns { a, b, c, d }
}

// Up to 32 columns from place p of the line on.
fn columns_at(line: &[u8], p: usize, n: usize) -> Columns
    requires { (p + 4 * n ≤ 8 * length line.now) × (p < 2 ^ 31) × (0 < n) × (n ≤ 32) }
    ensures { Numbered (digits_of line.now) p n result }
{
    if n < 16 {
        few_columns(line, p, n)
    } else {
        many_columns(line, p, n)
    }
}

// The columns between two heads, from place p of the line on, up to 32 a turn: each tributary is handed every fourth digit. One call puts out whole turns
// and what is left, so that the writers stay where the compiler has them. The loop goes by what was taken: in a range of turns, or with `step_by`,
// extraction takes a tenth more instructions.
fn receive_columns(
    line: &[u8],
    p: usize,
    buffer: &mut [u8],
    q: usize,
    w0: Writers,
    columns: usize,
) -> Writers
    requires { RunAsked line.now p buffer.old q w0 columns }
    ensures { Grown q buffer.old buffer.new w0 result (run_digits (digits_of line.now) p columns) }
{
    let mut w = w0;
    let mut k: usize = 0;
    while k < columns {
        let n = (columns - k).min(32);
        let x = columns_at(line, p + 4 * k, n);
        w = put_four(buffer, q, w, x, n);
        k += n;
    }
    w
}

// The place of tributary j (from 0) in the column from place p on: its digit where the place carries one, or none. It is put out either way, one digit or no
// digit of it: which it is changes from frame to frame, and a branch would often be foretold wrongly.
fn receive_place(
    line: &[u8],
    p: usize,
    carries: bool,
    buffer: &mut [u8],
    q: usize,
    j: usize,
    w: Writer,
) -> Writer
    requires { (p + 4 ≤ 8 * length line.now)
        × (p < 2 ^ 31)
        × (4 * q ≤ length buffer.old)
        × (j < 4)
        × Within q (length (column_digits (digits_of line.now) p carries j)) w }
    ensures { Put q j buffer.old buffer.new w result (column_digits (digits_of line.now) p carries j) }
{
    let n = digits::digit_of(carries);
    let d = lent::line_digit(line, FramePlace(p + j));
    put_quarter(buffer, q, j, w, (d & n) as u64, n as usize)
}

// The column of a head from place p of the line on, its places of this kind, of a frame with this note after one with the preceding note.
fn receive_column(
    row: Row,
    line: &[u8],
    p: usize,
    kind: Kind,
    preceding: u64,
    note: u8,
    buffer: &mut [u8],
    q: usize,
    w: Writers,
) -> Writers
    requires { (p + 4 ≤ 8 * length line.now)
        × (p < 2 ^ 31)
        × (4 * q ≤ length buffer.old)
        × Roomy q (λ (j : ℕ). length (kind_digits (digits_of line.now) p kind (acts_by row preceding note) j)) w }
    ensures { Grown q buffer.old buffer.new w result (kind_digits (digits_of line.now) p kind (acts_by row preceding note)) }
{
    let at_a = order::carries_digit(row, kind, preceding, note, 0);
    let at_b = order::carries_digit(row, kind, preceding, note, 1);
    let at_c = order::carries_digit(row, kind, preceding, note, 2);
    let at_d = order::carries_digit(row, kind, preceding, note, 3);
    let a = receive_place(line, p, at_a, buffer, q, 0, w.a);
    let b = receive_place(line, p, at_b, buffer, q, 1, w.b);
    let c = receive_place(line, p, at_c, buffer, q, 2, w.c);
    let d = receive_place(line, p, at_d, buffer, q, 3, w.d);
    Writers { a, b, c, d }
}

// The head of set s, from place p of the line on: of the last set's, the columns behind the control digits, each by what its places are, so that the
// negative places come before the positive ones. One call hands out either, so that the writers stay where the compiler has them. The loop goes by hand:
// with `step_by` extraction takes a twelfth more instructions, in a range of columns a fiftieth.
fn receive_head(
    row: Row,
    line: &[u8],
    p: usize,
    s: usize,
    preceding: u64,
    note: u8,
    buffer: &mut [u8],
    q: usize,
    w0: Writers,
) -> Writers
    requires { Shared row
        × (p + row.set ≤ 8 * length line.now)
        × (p < 2 ^ 30)
        × (4 * q ≤ length buffer.old)
        × Roomy q (λ (j : ℕ). length (head_digits row (digits_of line.now) p s (acts_by row preceding note) j)) w0 }
    ensures { Grown q buffer.old buffer.new w0 result (head_digits row (digits_of line.now) p s (acts_by row preceding note)) }
{
    if s != row.sets - 1 {
        return w0;
    }
    let mut w = w0;
    let mut r: usize = CONTROL_END + 1;
    while r < row.last {
        let kind = places::kind_of(
            row,
            At {
                frame: 0,
                set: s,
                place: r,
            },
        );
        w = receive_column(row, line, p + r, kind, preceding, note, buffer, q, w);
        r += 4;
    }
    w
}

// Set s, from place p of the line on, of a frame with this note after one with the preceding note: its head, then its run, up to the next head.
pub fn receive_set(
    row: Row,
    line: &[u8],
    p: usize,
    s: usize,
    preceding: u64,
    note: u8,
    buffer: &mut [u8],
    q: usize,
    w: Writers,
) -> Writers
    requires { Shared row
        × (p + row.set ≤ 8 * length line.now)
        × (p < 2 ^ 30)
        × (4 * q ≤ length buffer.old)
        × Roomy q (λ (j : ℕ). length (set_digits row (digits_of line.now) p s (acts_by row preceding note) j)) w }
    ensures { Grown q buffer.old buffer.new w result (set_digits row (digits_of line.now) p s (acts_by row preceding note)) }
{
    let end = places::head_end(row, s);
    let v = receive_head(row, line, p, s, preceding, note, buffer, q, w);
    receive_columns(line, p + end, buffer, q, v, (row.set - end) / 4)
}

// The writer of tributary j (from 0).
pub fn writer_of(w: Writers, j: usize) -> Writer
    requires { j < 4 }
    ensures { result ≡ writer_of w j }
{
    match j {
        0 => w.a,
        1 => w.b,
        2 => w.c,
        _ => w.d,
    }
}
