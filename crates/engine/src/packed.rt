// Packed digits, one at a time: read one, write one. Digits stand eight to a byte, first digit in the most significant bit. Both take the
// byte from which the digits are counted: 0 for a line, a quarter's first byte for a tributary.
ghost use Rattle.std.specs.Prelude.{◌≡◌, cond, ℕ, ◌+◌, ◌*◌, ◌/◌, ◌<◌, eqb, length};
ghost use Rattle.engine.specs.Engine.{digit_at, quarter_digit};
ghost use Rattle.engine.specs.Walk.{Bytes};
ghost use Rattle.engine.specs.Change.{changed};

// Digit i from byte a on.
pub fn digit_from(bytes: &[u8], a: usize, i: usize) -> u8
    requires { a + i / 8 < length bytes.now }
    ensures { (result ≡ digit_at bytes.now (8 * a + i)) × (result < 2) }
{
    (bytes[a + i / 8] >> (7 - i % 8)) % 2
}

// The byte b with d as the digit that is worth 2 to the k: the old digit is taken out, and d put in.
fn change(b: u8, k: usize, d: u8) -> u8
    requires { (k < 8) × (d < 2) }
    ensures { result ≡ changed b k d }
{
    b - (((b >> k) % 2) << k) + (d << k)
}

// Digit d as digit i from byte a on; every other digit stays.
pub fn put_from(bytes: &mut [u8], a: usize, i: usize, d: u8)
    requires { (a + i / 8 < length bytes.old) × (d < 2) }
    ensures { ((k : ℕ) → digit_at bytes.new k ≡ cond (eqb k (8 * a + i)) d (digit_at bytes.old k))
        × Bytes bytes.new }
{
    let at = a + i / 8;
    bytes[at] = change(bytes[at], 7 - i % 8, d);
}

// Digit i of quarter j of the buffer; past the quarter's end there are zeros.
#[tactic(auto, unfolding(crate::specs::Engine::quarter_digit))]
pub fn quarter_digit(buffer: &[u8], j: usize, i: usize) -> u8
    requires { j < 4 }
    ensures { (result ≡ quarter_digit buffer.now j i) × (result < 2) }
{
    let q = buffer.len() / 4;
    if i < 8 * q {
        digit_from(buffer, j * q, i)
    } else {
        0
    }
}
