// What a piece of many digits does, part by part: the stretch that is counted, the frame in hand, and where many digits at once lead, hunting and outside it. The
// receiver puts the parts together. A crate of its own below it, so that it and the wrong programs that change it are checked quickly.
#![tactic(auto)]

pub mod alarm;
pub mod carry;
pub mod frame;
pub mod hurry;

ghost use Rattle.std.specs.Prelude.{◌≡◌};
ghost use Rattle.pieces.specs.Frame.{aligned};

use modes::Mode;

pub fn is_aligned(mode: Mode) -> bool
    ensures { result ≡ aligned mode }
{
    matches!(mode, Mode::Aligned(_)) // only the third good word aligns
}
