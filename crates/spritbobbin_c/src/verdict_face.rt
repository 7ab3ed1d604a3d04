// The C face of the verdict on a worn line: a fresh state, and the next frames of a recording fed to a state. The statements are those of the two calls
// themselves (crates/verdict_states/specs/States.antt, crates/verdict/specs/Feed.antt): states and answers are arrays of numbers already, and of the
// Result C is given the number.
ghost use Rattle.verdict.specs.Feed.{FeedMet};
ghost use Rattle.verdict_states.specs.States.{FreshMet};

// Makes a fresh state for a level, with the vote before the first frame and the pattern sent, or 0. Returns the refusal number.
#[unsafe(no_mangle)]
pub extern "C" fn spritbobbin_verdict_fresh(
    level: u64,
    earlier: u64,
    pattern: u64,
    state: &mut [u64; 683],
) -> u64
    ensures { FreshMet level earlier pattern result state.new }
{
    spritbobbin::verdict_face::spritbobbin_verdict_fresh(level, earlier, pattern, state)
}

// Feeds the next frames, with the vote of the frame after them or 16 and the digits sent from number `first` on; answer: 22 numbers for each tributary. Returns the
// refusal number.
#[unsafe(no_mangle)]
pub extern "C" fn spritbobbin_verdict_feed(
    state: &mut [u64; 683],
    line: &[u8],
    next: u64,
    sent: &[u8],
    first: u64,
    answer: &mut [u64; 88],
) -> u64
    ensures { FeedMet state.old line.now next sent.now first result state.new answer.new }
{
    spritbobbin::verdict_face::spritbobbin_verdict_feed(state, line, next, sent, first, answer)
}
