// The reader struct of document 01, run: a reader is made at a place of a line and stepped twice, and one is made where it has gone, until a step
// says that the line has ended. Lines at their borders, and places before, at and past the last digit.
ghost use Rattle.std.specs.Prelude.{◌≤◌};
ghost use Rattle.line_reader.specs.Step.{StepMet};

use line_reader::Step;
use std::io;
use telling::inputs;

// A line of so many bytes, byte i of it i modulo 256, and the place that is read from.
#[derive(Clone, Copy)]
struct Reading {
    line: usize,
    place: usize,
    // a byte more than a line may have
    ghost lent: { line ≤ 65537 },
}

const READINGS: [Reading; 10] = [
    Reading {
        line: 14,
        place: 93,
    },
    Reading { line: 2, place: 0 },
    Reading { line: 2, place: 15 },
    Reading { line: 2, place: 16 },
    Reading { line: 2, place: 17 },
    Reading { line: 0, place: 0 },
    Reading {
        line: 1,
        place: 18446744073709551615,
    },
    // The longest line, and one that is longer.
    Reading {
        line: 65536,
        place: 524277,
    },
    Reading {
        line: 65537,
        place: 0,
    },
    Reading {
        line: 65537,
        place: 524287,
    },
];

pub fn read_all(rt: &impl Print) -> io::Result<()> {
    for case in &READINGS {
        read(rt, case)?;
    }
    Ok(())
}

fn read(rt: &impl Print, case: &Reading) -> io::Result<()> {
    let mut bytes = [0u8; 65537];
    inputs::count_up(&mut bytes);
    print!(rt; "reader line {} place {}: digits", case.line, case.place)?;
    to_the_end(rt, &bytes[..case.line], case.place)
}

// At most 32 digits: more than any row of the table has left.
fn to_the_end(rt: &impl Print, line: &[u8], from: usize) -> io::Result<()> {
    let mut place = from;
    for _turn in 0..16 {
        let (first, second) = two_from(line, place);
        if ends(rt, first)? || ends(rt, second)? {
            return Ok(());
        }
        place = second.place;
    }
    Ok(())
}

// Writes a step, and answers whether the line has ended.
fn ends(rt: &impl Print, step: Step) -> io::Result<bool> {
    if step.ended {
        println!(rt; " ended at {}", step.place)?;
    } else {
        print!(rt; " {}", step.digit)?;
    }
    Ok(step.ended)
}

// A reader made at a place, and stepped twice.
fn two_from(line: &[u8], place: usize) -> (Step, Step)
    ensures { StepMet line.now place result.0 × StepMet line.now result.0.place result.1 }
{
    let mut r = line_reader::new(line, place);
    let first = line_reader::next(&mut r);
    let second = line_reader::next(&mut r);
    (first, second)
}
