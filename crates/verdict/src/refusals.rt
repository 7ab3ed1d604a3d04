// Why a feed is refused (specs/Feed.antt): 6, 2, 4 and 5, in this order.
ghost use Rattle.std.specs.Prelude.{◌≡◌, ◌&&◌, not, ◌%◌, eqb, length};
ghost use Rattle.levels.specs.Table.{Shared};
ghost use Rattle.refusal.specs.Refusal.{refusal_in};
ghost use Rattle.verdict.specs.Feed.{feed_fault};
ghost use Rattle.verdict_states.specs.States.{state_from};

use levels::sizes;
use refusal::Refusal;
use table::Row;
use verdict_states::validity;

// Whether what was sent is not four equal quarters: asked with pattern 0 only.
fn bad_sent(pattern: u64, sent: usize) -> bool
    ensures { result ≡ (eqb pattern 0 && not (eqb (sent % 4) 0)) }
{
    pattern == 0 && sent % 4 != 0
}

// The first that applies on a level's row, by the lengths of line and sent in bytes. A state of no level is refused before.
pub fn feed_fault(
    row: Row,
    state: &[u64],
    line: usize,
    next: u64,
    sent: usize,
) -> Result<(), Refusal>
    requires { Shared row × (length state.now ≡ 683) }
    ensures { refusal_in result ≡ feed_fault row (state_from state.now) line next sent }
{
    if !validity::is_valid(state) {
        Err(Refusal::State)
    } else if sizes::bad_line(row, line) {
        Err(Refusal::Line)
    } else if bad_sent(state[1], sent) {
        Err(Refusal::Buffer)
    } else if 16 < next {
        Err(Refusal::NoteBits)
    } else {
        Ok(())
    }
}
