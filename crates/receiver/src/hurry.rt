// The hunt in a hurry: many digits at once, where no word stands. Nothing here looks at the frame.
ghost use Rattle.std.specs.Prelude.{◌≡◌, ◌*◌, ◌-◌, ◌^◌, ◌<◌, ◌≤◌, length};
ghost use Rattle.levels.specs.Table.{Shared};
ghost use Rattle.modes.specs.Modes.{Valid};
ghost use Rattle.receiver.specs.Hunt.{Hunted};

use modes::Core;
use pieces::hurry;
use pieces::hurry::Hunt;
use table::Row;

// The hunt in a hurry: takes digits while they do no more than move the window, and leaves the digit that may end the
// hunt, or the last one, to `step`.
pub fn hunt_on(row: Row, mask: usize, c: Core, piece: &[u8], first: usize, end: usize) -> Hunt
    requires { Shared row × (mask ≡ 2 ^ row.len - 1) × Valid row c × (length piece.now ≤ 65536) × (first < end) × (end ≤ 8 * length piece.now) }
    ensures { Hunted row piece.now end first c result.at result.words result.core }
{
    if !modes::is_hunting(c.mode) {
        return Hunt {
            core: c,
            at: first,
            words: 0,
        };
    }
    let s = strides::seek(
        row.len,
        mask,
        row.word as usize,
        c.window,
        piece,
        first,
        end,
    );
    hurry::hunt_at(row, s.window, c.seen, first, s.at)
}
