// Where the hunt in a hurry stands: the core, and the words tested, after many digits among which no word stands. Nothing here looks at the frame.
ghost use Rattle.std.specs.Prelude.{◌≡◌, ◌+◌, ◌-◌, ◌≤◌};
ghost use Rattle.levels.specs.Table.{Shared};
ghost use Rattle.pieces.specs.Hunt.{still_hunting, tested_in};

use modes::{Core, Mode};
use table::Row;

// How many words the hunt tests while the digits that came grow so: those of its digits that come after the first L - 1.
fn tested_in(row: Row, seen: usize, came: usize) -> usize
    requires { Shared row × (seen ≤ came) }
    ensures { result ≡ tested_in row seen came }
{
    let others = row.len - 1;
    came.saturating_sub(others) - seen.saturating_sub(others)
}

// Where a stretch of the hunt ended: the core, the place of the next digit in the piece, and how many words were tested.
#[derive(Clone, Copy)]
pub struct Hunt {
    pub core: Core,
    pub at: usize,
    pub words: usize,
}

// A core that hunts after so many digits, of which all but L are forgotten.
fn still_hunting(row: Row, window: usize, came: usize) -> Core
    ensures { result ≡ still_hunting row window came }
{
    Core {
        window,
        seen: came.min(row.len),
        mode: Mode::Hunting,
        place: 0,
    }
}

// Where a hunt stands that took the digits from first on and before at, and found nothing.
pub fn hunt_at(row: Row, window: usize, seen: usize, first: usize, at: usize) -> Hunt
    requires { Shared row × (seen ≤ row.len) × (first ≤ at) × (at ≤ 524288) }
    ensures { (result.core ≡ still_hunting row window (seen + (at - first))) × (result.at ≡ at) × (result.words ≡ tested_in row seen (seen + (at - first))) }
{
    let came = seen + (at - first);
    Hunt {
        core: still_hunting(row, window, came),
        at,
        words: tested_in(row, seen, came),
    }
}
