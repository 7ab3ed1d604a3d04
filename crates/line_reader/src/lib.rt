// A reader over the digits of a line: a struct that holds the lent line by reference, and its place.
// It is kept thin: `step_at` is the whole meaning, on a slice and a number; `new` and `next` only put the struct together
// and take it apart; whoever holds no reader asks `line_digit`.
#![tactic(auto)]

ghost use Rattle.line_reader.specs.Step.{StepMet, NewMet, NextMet, DigitMet};

#[derive(Drop)]
pub struct LineReader<'a> {
    pub line: &'a [u8],
    pub place: usize,
}

// What a step gives: the digit, or that the line has ended, and the place that comes next.
#[derive(Clone, Copy)]
pub struct Step {
    pub ended: bool,
    pub digit: u8,
    pub place: usize,
}

// The step from a place of a line. The length comes first, so that eight times the bytes cannot wrap.
pub fn step_at(line: &[u8], place: usize) -> Step
    ensures { StepMet line.now place result }
{
    let bytes = line.len();
    if bytes <= 65536 {
        if place < 8 * bytes {
            let digit = digits::digit_at(line, place);
            return Step {
                ended: false,
                digit,
                place: place + 1,
            };
        }
    }
    Step {
        ended: true,
        digit: 0,
        place,
    }
}

// A reader at any place of a line, past its last digit too.
pub fn new<'a>(line: &'a [u8], place: usize) -> LineReader<'a>
    ensures { NewMet line.entry place result }
{
    LineReader { line, place }
}

// The next digit, and on by one; where the line has ended nothing moves.
pub fn next<'s, 'a>(r: &'s mut LineReader<'a>) -> Step
    ensures { NextMet r.old result r.new }
{
    let s = step_at(r.line, r.place);
    r.place = s.place;
    s
}

// The digit at a place as a number, 2 where the line has ended: for a caller that keeps the place itself.
pub fn line_digit(line: &[u8], place: usize) -> u64
    ensures { DigitMet line.now place result }
{
    let s = step_at(line, place);
    if s.ended { 2 } else { s.digit as u64 }
}
