// Which of sixteen frames of 2048 kbit/s in a row begins the multiframe: a hunt finds frames, and not which of them is frame 0. specs/Start.antt says by what
// it is known.
#![tactic(auto)]

ghost use Rattle.std.specs.Prelude.{◌≡◌, ◌<◌, length, unwrap_or, IfOk, IfSome};
ghost use Rattle.multiframe_start.specs.Start.{is_start, start_among, numbers_of, StartMet};

use refusal::Refusal;

// Whether frame f begins the multiframe: its byte 0 ends in the word, and the first half of its byte 16 is 0000.
#[tactic(auto, unfolding(crate::specs::Start::is_start))]
fn is_start(frames: &[u8], f: usize) -> bool
    requires { (length frames.now ≡ 512) × (f < 16) }
    ensures { result ≡ is_start frames.now f }
{
    frames[32 * f] % 128 == 27 && frames[32 * f + 16] / 16 == 0
}

// The first frame that does.
fn first_start(frames: &[u8]) -> Option<usize>
    requires { length frames.now ≡ 512 }
    ensures { (unwrap_or result 16 ≡ start_among frames.now 16) × IfSome result (λ frame. frame < 16) }
{
    for f in 0..16 {
        if is_start(frames, f) {
            return Some(f);
        }
    }
    None
}

// Sixteen frames, whole and in a row, from any frame of a multiframe on: the one that begins the multiframe, from 0, or none.
pub fn multiframe_start(frames: &[u8]) -> Result<Option<usize>, Refusal>
    ensures { StartMet frames.now (numbers_of result) × IfOk result (λ start. IfSome start (λ frame. frame < 16)) }
{
    if frames.len() != 512 {
        return Err(Refusal::Line);
    }
    Ok(first_start(frames))
}
