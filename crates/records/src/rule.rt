// What the calls on a rack decide without looking at a record.
ghost use Rattle.std.specs.Prelude.{◌≡◌, cond, [], ◌∷◌, ◌+◌, ◌<◌};
ghost use Rattle.records.specs.Record.{is_aligned};
ghost use Rattle.records.specs.Rule.{list_refusal, count_refusal, counted_to, made_of, none_taken};

use crate::record::Kept;

// A number beyond the list is refused with 8 first, a list of more than 64 with 2 next.
pub fn list_refusal(number: usize, line: u64) -> u64
    ensures { result ≡ list_refusal number line }
{
    if number as u64 <= line {
        8
    } else if 64 < number {
        2
    } else {
        0
    }
}

// A feed that the list refuses: nothing taken, no frame, no alarm, no words tested.
pub fn refuse(refusal: u64, answer: &mut [u64; 4]) -> u64
    ensures { (result ≡ refusal) × (answer.new ≡ none_taken) }
{
    *answer = [0, 0, 0, 0];
    refusal
}

// What a reset gives: 8, 2, or what making a fresh state gives, and the record of that state.
pub fn made(number: usize, line: u64, level: u64) -> Kept
    ensures { result ≡ made_of number line level }
{
    let fresh = receiver::fresh(level);
    let kept = crate::record::record_of(fresh.state);
    let no = list_refusal(number, line);
    if no != 0 {
        Kept { refusal: no, kept }
    } else {
        Kept {
            refusal: fresh.refusal,
            kept,
        }
    }
}

// How many records a count looks at: none of a list of more than 64.
pub fn counted(number: usize) -> usize
    ensures { result ≡ counted_to number }
{
    if number <= 64 { number } else { 0 }
}

pub fn count_on(n: u64, mode: u64) -> u64
    requires { n < 64 }
    ensures { result ≡ n + cond (is_aligned mode) 1 0 }
{
    if crate::record::is_aligned(mode) {
        n + 1
    } else {
        n
    }
}

pub fn tell(number: usize, n: u64, answer: &mut [u64; 1]) -> u64
    ensures { (result ≡ count_refusal number) × (answer.new ≡ n ∷ []) }
{
    *answer = [n];
    if number <= 64 { 0 } else { 2 }
}
