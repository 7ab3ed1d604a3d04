// A run of one tributary's digits by whole bytes: eight columns are four bytes of the line, in which the tributary has every fourth place.
ghost use Rattle.std.specs.Prelude.{◌≡◌, ◌+◌, ◌*◌, ◌-◌, ◌%◌, ◌^◌, ◌<◌, ◌≤◌, length};
ghost use Rattle.std.specs.Int.Bits.{bit_and, bit_or};
ghost use Rattle.digits.specs.Digits.{digits_of, tab};
ghost use Rattle.weave.specs.Weave.{spread_of};
ghost use Rattle.swap.specs.Filling.{own_places, Ran};

// The places of tributary j (from 0) in eight columns: 1 at each of them.
fn own_places(j: usize) -> u64
    requires { j < 4 }
    ensures { result ≡ own_places j }
{
    0x1111_1111 << (3 - j)
}

// Eight columns as a number, with other digits of tributary j (from 0): eight digits, spread.
fn exchanged(columns: u64, spread: u64, j: usize) -> u64
    requires { (j < 4) × (columns < 2 ^ 32) × (15 * spread < 2 ^ 32) }
    ensures { result ≡ bit_or (bit_and columns (2 ^ 32 - 1 - own_places j)) (spread * 2 ^ (3 - j)) }
{
    (columns & (0xffff_ffff - own_places(j))) | (spread << (3 - j))
}

// Eight columns from byte `at` of the line on: tributary j (from 0) gets its digits from i on.
fn put_eight(table: &[u32; 256], line: &mut [u8], at: usize, buffer: &[u8], i: usize, j: usize)
    requires { (table.now ≡ tab 256 0 (spread_of 8))
        × (at + 4 ≤ length line.old)
        × (i + 8 ≤ 8 * length buffer.now)
        × (j < 4) }
    ensures { Ran line.old (2 * at) 8 (digits_of buffer.now) i j line.new }
{
    let digits = weave::spread(table, words::read_digits(buffer, i, 8));
    words::store4(line, at, exchanged(words::load4(line, at), digits, j));
}

// Columns by eight, from byte `at` of the line on: those from k on where the first k are done, or at the end the last eight. These may go over some a
// second time, with the same digits, so that no column is left.
pub fn put_columns(
    table: &[u32; 256],
    line: &mut [u8],
    at: usize,
    buffer: &[u8],
    i: usize,
    j: usize,
    columns: usize,
)
    requires { (table.now ≡ tab 256 0 (spread_of 8))
        × (columns % 2 ≡ 0)
        × (0 < columns → 8 ≤ columns)
        × (2 * at + columns ≤ 2 * length line.old)
        × (i + columns ≤ 8 * length buffer.now)
        × (i + columns < 65536)
        × (j < 4) }
    ensures { Ran line.old (2 * at) columns (digits_of buffer.now) i j line.new }
{
    for eight in 0..columns.div_ceil(8) {
        let k = 8 * eight;
        let c = k.min(columns - 8);
        put_eight(table, line, at + c / 2, buffer, i + c, j);
    }
}
