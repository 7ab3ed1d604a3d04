// Outside hunting, in a hurry: digits at which no rule looks move the window and the place, and are put in the frame. The digit at
// which a rule looks, or the last one, is left to `step`.
ghost use Rattle.std.specs.Prelude.{◌≡◌, ◌*◌, ◌-◌, ◌^◌, ◌<◌, ◌≤◌, length};
ghost use Rattle.levels.specs.Table.{Shared};
ghost use Rattle.modes.specs.Modes.{Valid};
ghost use Rattle.receiver.specs.Carry.{Carried};

use modes::Core;
use pieces::carry::Carry;
use pieces::{carry, frame};
use table::Row;

// Goes at once to the digit before the one at which a rule looks: before the last digit of the frame, from there on before the last of the next
// word.
pub fn carry_on(
    row: Row,
    mask: usize,
    c: Core,
    piece: &[u8],
    first: usize,
    end: usize,
    f: &mut [u8; 366],
) -> Carry
    requires { Shared row × (mask ≡ 2 ^ row.len - 1) × Valid row c × (length piece.now ≤ 65536) × (first < end) × (end ≤ 8 * length piece.now) }
    ensures { Carried row piece.now end first c f.old result.at result.core f.new }
{
    if modes::is_hunting(c.mode) {
        return Carry { core: c, at: first };
    }
    let last = row.digits - row.len;
    if c.place < last {
        let at = first + (last - 1 - c.place).min(end - 1 - first);
        frame::copy(f, row.len + c.place, piece, first, at);
        carry::gone_on(row, mask, c, piece, first, at)
    } else {
        let at = first + (row.digits - 1 - c.place).min(end - 1 - first);
        carry::gone_on(row, mask, c, piece, first, at)
    }
}
