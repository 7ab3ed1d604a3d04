// The rows of columns turned over: sixteen digits of each tributary, in a word (words/src/turning.rt).
ghost use Rattle.std.specs.Prelude.{◌≡◌, ◌+◌, ◌*◌, ◌%◌, ◌^◌, ◌<◌, ◌≤◌};
ghost use Rattle.unweave.specs.Lanes.{row_of};

// Tributary j's row (from 0), as a number.
fn row_of(rows: u64, j: usize) -> u64
    requires { j < 4 }
    ensures { (result ≡ row_of rows j) × (result < 2 ^ 16) }
{
    (rows >> (16 * (3 - j))) & 65535
}

// The last n digits of tributary j's row. One mask takes away the digits before them and the rows before it.
pub fn last_of(rows: u64, j: usize, n: usize) -> u64
    requires { (j < 4) × (n ≤ 16) }
    ensures { (result ≡ row_of rows j % 2 ^ n) × (result < 2 ^ n) }
{
    (rows >> (16 * (3 - j))) & words::ones(n)
}

// Tributary j's row, then the last n digits of its row in another word.
pub fn both_of(first: u64, last: u64, j: usize, n: usize) -> u64
    requires { (j < 4) × (n ≤ 16) }
    ensures { (result ≡ row_of first j * 2 ^ n + row_of last j % 2 ^ n) × (result < 2 ^ (16 + n)) }
{
    (row_of(first, j) << n) | last_of(last, j, n)
}
