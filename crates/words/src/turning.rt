// Sixteen columns of four digits are a word of 64 digits: a matrix, which four exchanges of digits turn over into four rows of sixteen, a row
// for each tributary.
ghost use Rattle.std.specs.Prelude.{◌<◌, ◌≡◌};
ghost use Rattle.words.specs.Turning.{exchanged, TurnedOver};

// Exchanges the digits under the mask with those so many places before them.
fn exchange(word: u64, by: usize, mask: u64) -> u64
    requires { by < 64 }
    ensures { result ≡ exchanged word by mask }
{
    let differ = ((word >> by) ^ word) & mask;
    (word ^ differ) ^ (differ << by)
}

// Columns into rows: the first tributary's row is first.
pub fn from_columns(word: u64) -> u64
    ensures { TurnedOver result word }
{
    let within_bytes = exchange(word, 3, 0x0A0A_0A0A_0A0A_0A0A);
    let pairs = exchange(within_bytes, 6, 0x00CC_00CC_00CC_00CC);
    let fours = exchange(pairs, 12, 0x0000_F0F0_0000_F0F0);
    exchange(fours, 24, 0x0000_0000_FF00_FF00)
}
