// Runs worked cases 9, 10 and 11 of document 01, the example of request 1, a multiframe and frames of 2048 kbit/s that are found and lost,
// stretches of the alarm, a line read digit by digit to its end, and more of the kind: each refusal at its border, and each pair of faults that
// tells the order. What it must write was worked out by the separate program of reference/, which shares nothing with the crates.
#![tactic(auto)]

mod votes;

ghost use Rattle.std.specs.Prelude.{◌≤◌};

use capture_cases::capture;
use levels::faults::Refused;
use multiframe_cases::{hunt, whole};
use std::{fmt, io};
use stream_cases::{alarm, reader, stream};
use telling::inputs;
use telling::say::Spaced;

// A multiplex call: the notes are `before` before frame `from` and `note` from there on. The line that it leaves is then extracted by these notes.
#[derive(Clone, Copy)]
struct Sending {
    level: u64,
    line: usize,
    notes: usize,
    before: u8,
    note: u8,
    from: usize,
    buffer: usize,
    // at most what `send` lends
    ghost lent: { (line ≤ 23790) × (notes ≤ 65) × (buffer ≤ 23500) },
}

// A line whose bytes are all `fill`: its notes are read, and it is extracted by them.
#[derive(Clone, Copy)]
struct Receiving {
    level: u64,
    line: usize,
    fill: u8,
    notes: usize,
    buffer: usize,
    // at most what `receive` lends
    ghost lent: { (line ≤ 6890) × (notes ≤ 65) × (buffer ≤ 6696) },
}

const SENDINGS: [Sending; 37] = [
    // Case 9, and the other levels at the same borders.
    Sending {
        level: 2,
        line: 6784,
        notes: 64,
        before: 32,
        note: 47,
        from: 32,
        buffer: 6592,
    },
    Sending {
        level: 2,
        line: 6890,
        notes: 65,
        before: 32,
        note: 32,
        from: 0,
        buffer: 6696,
    },
    Sending {
        level: 2,
        line: 105,
        notes: 1,
        before: 32,
        note: 32,
        from: 0,
        buffer: 104,
    },
    Sending {
        level: 2,
        line: 106,
        notes: 1,
        before: 32,
        note: 32,
        from: 0,
        buffer: 104,
    },
    Sending {
        level: 2,
        line: 106,
        notes: 1,
        before: 32,
        note: 32,
        from: 0,
        buffer: 100,
    },
    Sending {
        level: 3,
        line: 12288,
        notes: 64,
        before: 32,
        note: 37,
        from: 1,
        buffer: 12096,
    },
    Sending {
        level: 3,
        line: 12480,
        notes: 65,
        before: 32,
        note: 32,
        from: 0,
        buffer: 12288,
    },
    Sending {
        level: 4,
        line: 23424,
        notes: 64,
        before: 224,
        note: 250,
        from: 1,
        buffer: 23136,
    },
    Sending {
        level: 4,
        line: 23790,
        notes: 65,
        before: 224,
        note: 224,
        from: 0,
        buffer: 23500,
    },
    // Case 10, and the note alone.
    Sending {
        level: 2,
        line: 106,
        notes: 1,
        before: 32,
        note: 64,
        from: 0,
        buffer: 100,
    },
    Sending {
        level: 2,
        line: 106,
        notes: 1,
        before: 32,
        note: 64,
        from: 0,
        buffer: 104,
    },
    Sending {
        level: 3,
        line: 960,
        notes: 5,
        before: 32,
        note: 128,
        from: 3,
        buffer: 960,
    },
    Sending {
        level: 4,
        line: 366,
        notes: 1,
        before: 224,
        note: 224,
        from: 0,
        buffer: 364,
    },
    // A national digit that is not 1: at levels 2 and 3 there is one, at level 4 there are three.
    Sending {
        level: 2,
        line: 106,
        notes: 1,
        before: 32,
        note: 31,
        from: 0,
        buffer: 104,
    },
    Sending {
        level: 3,
        line: 960,
        notes: 5,
        before: 32,
        note: 0,
        from: 3,
        buffer: 960,
    },
    Sending {
        level: 4,
        line: 1098,
        notes: 3,
        before: 224,
        note: 223,
        from: 2,
        buffer: 1088,
    },
    Sending {
        level: 4,
        line: 1098,
        notes: 3,
        before: 224,
        note: 191,
        from: 2,
        buffer: 1088,
    },
    Sending {
        level: 4,
        line: 1098,
        notes: 3,
        before: 224,
        note: 127,
        from: 2,
        buffer: 1088,
    },
    Sending {
        level: 4,
        line: 1098,
        notes: 3,
        before: 224,
        note: 16,
        from: 1,
        buffer: 1088,
    },
    // A short quarter comes before it, and a bit that the level lacks in any later note too.
    Sending {
        level: 2,
        line: 106,
        notes: 1,
        before: 32,
        note: 0,
        from: 0,
        buffer: 100,
    },
    Sending {
        level: 2,
        line: 212,
        notes: 2,
        before: 0,
        note: 32,
        from: 1,
        buffer: 208,
    },
    Sending {
        level: 2,
        line: 212,
        notes: 2,
        before: 0,
        note: 64,
        from: 1,
        buffer: 208,
    },
    Sending {
        level: 3,
        line: 960,
        notes: 5,
        before: 0,
        note: 160,
        from: 4,
        buffer: 960,
    },
    // Notes one short and one long, buffers that are no multiple of 4.
    Sending {
        level: 2,
        line: 212,
        notes: 1,
        before: 32,
        note: 32,
        from: 0,
        buffer: 208,
    },
    Sending {
        level: 2,
        line: 106,
        notes: 2,
        before: 32,
        note: 32,
        from: 0,
        buffer: 104,
    },
    Sending {
        level: 2,
        line: 106,
        notes: 1,
        before: 32,
        note: 32,
        from: 0,
        buffer: 103,
    },
    Sending {
        level: 2,
        line: 106,
        notes: 1,
        before: 32,
        note: 32,
        from: 0,
        buffer: 105,
    },
    // Room is asked for F·n digits even where frames are stuffed.
    Sending {
        level: 2,
        line: 848,
        notes: 8,
        before: 32,
        note: 47,
        from: 0,
        buffer: 820,
    },
    Sending {
        level: 2,
        line: 848,
        notes: 8,
        before: 32,
        note: 47,
        from: 0,
        buffer: 824,
    },
    // No frames, and levels that there are not.
    Sending {
        level: 2,
        line: 0,
        notes: 0,
        before: 0,
        note: 0,
        from: 0,
        buffer: 0,
    },
    Sending {
        level: 2,
        line: 0,
        notes: 0,
        before: 0,
        note: 0,
        from: 0,
        buffer: 3,
    },
    Sending {
        level: 258,
        line: 0,
        notes: 0,
        before: 0,
        note: 0,
        from: 0,
        buffer: 0,
    },
    Sending {
        level: 18446744073709551615,
        line: 0,
        notes: 0,
        before: 0,
        note: 0,
        from: 0,
        buffer: 0,
    },
    // The order 1, 2, 3, 4, 5, 10: the first wrong thing, and all later ones wrong as well.
    Sending {
        level: 5,
        line: 105,
        notes: 2,
        before: 0,
        note: 64,
        from: 1,
        buffer: 103,
    },
    Sending {
        level: 2,
        line: 105,
        notes: 2,
        before: 0,
        note: 64,
        from: 1,
        buffer: 103,
    },
    Sending {
        level: 2,
        line: 106,
        notes: 2,
        before: 0,
        note: 64,
        from: 1,
        buffer: 103,
    },
    Sending {
        level: 2,
        line: 212,
        notes: 2,
        before: 0,
        note: 64,
        from: 1,
        buffer: 207,
    },
];

const RECEIVINGS: [Receiving; 10] = [
    Receiving {
        level: 2,
        line: 6784,
        fill: 144,
        notes: 64,
        buffer: 6592,
    },
    Receiving {
        level: 2,
        line: 6890,
        fill: 0,
        notes: 65,
        buffer: 6696,
    },
    Receiving {
        level: 2,
        line: 105,
        fill: 0,
        notes: 1,
        buffer: 104,
    },
    Receiving {
        level: 2,
        line: 106,
        fill: 255,
        notes: 1,
        buffer: 104,
    },
    Receiving {
        level: 2,
        line: 106,
        fill: 0,
        notes: 1,
        buffer: 100,
    },
    Receiving {
        level: 4,
        line: 732,
        fill: 19,
        notes: 2,
        buffer: 728,
    },
    Receiving {
        level: 2,
        line: 0,
        fill: 0,
        notes: 0,
        buffer: 4,
    },
    // The order 1, 2, 3, 4.
    Receiving {
        level: 5,
        line: 105,
        fill: 0,
        notes: 2,
        buffer: 103,
    },
    Receiving {
        level: 2,
        line: 105,
        fill: 0,
        notes: 2,
        buffer: 103,
    },
    Receiving {
        level: 2,
        line: 106,
        fill: 0,
        notes: 2,
        buffer: 103,
    },
];

impl fmt::Display for Sending {
    fn fmt<W: fmt::Write>(&self, f: &mut fmt::Formatter<W>) -> fmt::Result {
        write!(
            f,
            "level {} line {} notes {} before {} note {} from {} buffer {}",
            self.level, self.line, self.notes, self.before, self.note, self.from, self.buffer
        )
    }
}

impl fmt::Display for Receiving {
    fn fmt<W: fmt::Write>(&self, f: &mut fmt::Formatter<W>) -> fmt::Result {
        write!(
            f,
            "level {} line {} fill {} notes {}",
            self.level, self.line, self.fill, self.notes
        )
    }
}

// A write that fails ends the run with its error.
fn main(rt: HostRuntime) -> io::Result<()> {
    send_all(&rt)?;
    votes::vote_all(&rt)?;
    receive_all(&rt)?;
    stream::feed_all(&rt)?;
    alarm::stretch_all(&rt)?;
    stream::case_11(&rt)?;
    reader::read_all(&rt)?;
    capture::example(&rt)?;
    capture::write_all(&rt)?;
    capture::read_all(&rt)?;
    whole::example(&rt)?;
    whole::make_all(&rt)?;
    hunt::hunt_all(&rt)?;
    hunt::frames(&rt)
}

fn send_all(rt: &impl Print) -> io::Result<()> {
    for case in &SENDINGS {
        send(rt, case)?;
    }
    Ok(())
}

fn receive_all(rt: &impl Print) -> io::Result<()> {
    for case in &RECEIVINGS {
        receive(rt, case)?;
    }
    Ok(())
}

fn send(rt: &impl Print, case: &Sending) -> io::Result<()> {
    let mut line = [165u8; 23790];
    let mut notes = [0u8; 65];
    let mut buffer = [0u8; 23500];
    inputs::notes_from(&mut notes, case.before, case.note, case.from);
    inputs::count_up(&mut buffer);
    let line = &mut line[..case.line];
    let notes = &notes[..case.notes];
    let buffer = &mut buffer[..case.buffer];
    let sent = multiplex::multiplex(case.level, 0, line, notes, buffer);
    answered(rt, "multiplex", case, sent, inputs::sum(line))?;
    buffer.fill(165);
    let taken = extraction::extract(case.level, 0, line, notes, buffer);
    answered(rt, "extract", case, taken, inputs::sum(buffer))
}

fn receive(rt: &impl Print, case: &Receiving) -> io::Result<()> {
    let line = [case.fill; 6890];
    let mut notes = [165u8; 65];
    let mut buffer = [165u8; 6696];
    let line = &line[..case.line];
    let notes = &mut notes[..case.notes];
    let buffer = &mut buffer[..case.buffer];
    let (refusal, alignment, dissent) = match reading::read_notes(case.level, line, notes) {
        Ok(errors) => {
            let dissent = errors.dissent;
            (0, errors.alignment, dissent)
        }
        Err(refusal) => (u64::from(refusal), 0, [0; 4]),
    };
    print!(rt; "read_notes {case}: refusal {refusal} alignment {alignment}")?;
    println!(rt; " dissent{} sum {}", Spaced(&dissent), inputs::sum(notes))?;
    let taken = extraction::extract(case.level, 0, line, notes, buffer);
    let lent = format_args!("{case} buffer {}", case.buffer);
    answered(rt, "extract", &lent, taken, inputs::sum(buffer))
}

// What a call counted, and the sum of what it wrote.
fn answered(
    rt: &impl Print,
    call: &str,
    case: &impl fmt::Display,
    answer: Result<[usize; 4], Refused>,
    sum: u64,
) -> io::Result<()> {
    let (refusal, frame, counts) = match answer {
        Ok(counts) => (0, 0, counts),
        Err(refused) => (u64::from(refused.refusal), refused.frame, [0; 4]),
    };
    print!(rt; "{call} {case}: refusal {refusal} frame {frame}")?;
    println!(rt; " counts{} sum {sum}", Spaced(&counts))
}
