// The frame in hand: what a digit does to it, and when it is handed over.
ghost use Rattle.std.specs.Prelude.{◌≡◌, ◌+◌, ◌*◌, ◌-◌, ◌^◌, ◌<◌, ◌≤◌, length};
ghost use Rattle.digits.specs.Digits.{between};
ghost use Rattle.strides.specs.Copies.{puts};
ghost use Rattle.levels.specs.Table.{Shared};
ghost use Rattle.modes.specs.Modes.{Valid};
ghost use Rattle.pieces.specs.Frame.{begun, put, keep_of, ready_of};

use modes::Core;
use table::Row;

// Cleared, with the L digits of the window first: they are the first digits of the first two bytes.
fn begin(row: Row, shift: usize, window: usize, f: &mut [u8; 366])
    requires { Shared row × (shift + row.len ≡ 16) × (window < 2 ^ row.len) }
    ensures { f.new ≡ begun row window }
{
    let head = window << shift;
    *f = [0u8; 366];
    f[0] = (head / 256) as u8;
    f[1] = (head % 256) as u8;
}

// The digit put at a place of the frame.
fn put_at(f: &mut [u8; 366], p: usize, d: u8)
    requires { (p < 2928) × (d < 2) }
    ensures { f.new ≡ put f.old p d }
{
    digits::put_digit(f, p, d);
}

// Digits of a piece put in the frame.
pub fn copy(f: &mut [u8; 366], to: usize, piece: &[u8], first: usize, end: usize)
    requires { (first ≤ end) × (end ≤ 8 * length piece.now) × (length piece.now ≤ 65536) × (to + (end - first) ≤ 2928) }
    ensures { f.new ≡ puts f.old to (between piece.now first end) }
{
    strides::copies::copy(f, to, piece, first, end);
}

// What the digit does to the frame in hand; c is the core that the digit made.
pub fn keep(row: Row, shift: usize, c: Core, d: u8, f: &mut [u8; 366])
    requires { Shared row × (shift + row.len ≡ 16) × Valid row c × (d < 2) }
    ensures { f.new ≡ keep_of row c d f.old }
{
    if modes::is_hunting(c.mode) {
        return;
    }
    if c.place == 0 {
        begin(row, shift, c.window, f);
    } else if c.place <= row.digits - row.len {
        put_at(f, row.len - 1 + c.place, d);
    }
}

// Whether a frame is handed over.
pub fn is_ready(row: Row, c: Core) -> bool
    requires { Shared row }
    ensures { result ≡ ready_of row c }
{
    crate::is_aligned(c.mode) && c.place == row.digits - row.len
}
