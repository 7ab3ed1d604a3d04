// The C face of the finder of 2048 kbit/s frames: its state passes as four numbers.
ghost use Rattle.std.specs.Prelude.{◌≡◌};
ghost use Rattle.spritbobbin.specs.Finding.{mode_number, mode_of, state_numbers, fed_answer, FinderFreshMet, FinderFeedMet};

use finder_2048::{Fed, Mode, State};

fn phase_number(mode: Mode) -> u64
    ensures { result ≡ mode_number mode }
{
    match mode {
        Mode::Hunting => 0,
        Mode::WordFound => 1,
        Mode::SecondSeen => 2,
        Mode::Aligned(m) => 3 + m as u64,
    }
}

#[tactic(auto, unfolding(crate::specs::Finding::mode_of))]
fn phase_of(n: u64) -> Mode
    ensures { result ≡ mode_of n }
{
    match n {
        0 => Mode::Hunting,
        1 => Mode::WordFound,
        2 => Mode::SecondSeen,
        3..=5 => Mode::Aligned((n - 3) as u8),
        _ => Mode::Aligned(3),
    }
}

fn four_numbers(s: State) -> [u64; 4]
    ensures { result ≡ state_numbers s }
{
    let mode = s.mode;
    [
        s.window as u64,
        s.seen as u64,
        phase_number(mode),
        s.place as u64,
    ]
}

fn found_numbers(f: Fed) -> [u64; 2]
    ensures { result ≡ fed_answer f }
{
    [f.taken as u64, digits::as_number(f.aligned)]
}

// Makes a fresh state of the finder; never refused.
#[unsafe(no_mangle)]
pub extern "C" fn spritbobbin_finder_fresh(state: &mut [u64; 4]) -> u64
    ensures { FinderFreshMet result state.new }
{
    *state = four_numbers(finder_2048::fresh());
    0
}

// Feeds a piece; answer: digits taken, 1 if aligned at their end. A refused feed writes no state.
#[unsafe(no_mangle)]
pub extern "C" fn spritbobbin_finder_feed(
    state: &mut [u64; 4],
    piece: &[u8],
    first: u64,
    count: u64,
    answer: &mut [u64; 2],
) -> u64
    ensures { FinderFeedMet state.old piece.now first count result state.new answer.new }
{
    let mode = phase_of(state[2]);
    let s = State {
        window: state[0] as usize,
        seen: state[1] as usize,
        mode,
        place: state[3] as usize,
    };
    let fed = finder_2048::feed(s, piece, first as usize, count as usize);
    *answer = found_numbers(fed);
    if fed.refusal != 0 {
        return fed.refusal;
    }
    let next = fed.state;
    *state = four_numbers(next);
    fed.refusal
}
