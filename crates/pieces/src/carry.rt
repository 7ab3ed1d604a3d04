// Where digits in a hurry outside hunting lead: those at which no rule looks move the window and the place.
ghost use Rattle.std.specs.Prelude.{◌≡◌, ◌*◌, ◌-◌, ◌^◌, ◌≤◌, length};
ghost use Rattle.levels.specs.Table.{Shared};
ghost use Rattle.modes.specs.Modes.{Valid};
ghost use Rattle.pieces.specs.Carry.{gone_on};

use modes::Core;
use table::Row;

// The core, and the place of the next digit in the piece.
#[derive(Clone, Copy)]
pub struct Carry {
    pub core: Core,
    pub at: usize,
}

pub fn gone_on(row: Row, mask: usize, c: Core, piece: &[u8], first: usize, at: usize) -> Carry
    requires { Shared row × (mask ≡ 2 ^ row.len - 1) × Valid row c × (length piece.now ≤ 65536) × (first ≤ at) × (at ≤ 8 * length piece.now) }
    ensures { (result.core ≡ gone_on row piece.now first c (at - first)) × (result.at ≡ at) }
{
    let window = strides::window_over(row.len, mask, c.window, piece, first, at);
    Carry {
        core: Core {
            window,
            place: c.place + (at - first),
            ..c
        },
        at,
    }
}
