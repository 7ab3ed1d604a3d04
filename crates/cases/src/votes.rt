// Two frames each of levels 12 and 14 after a vote, in which each tributary does something else, sent and extracted again; and the refusals of
// the earlier vote and of a note.
ghost use Rattle.std.specs.Prelude.{◌≤◌};

use std::{fmt, io};
use telling::inputs;
use telling::say::Spaced;

#[derive(Clone, Copy)]
struct Voting {
    level: u64,
    earlier: u64,
    line: usize,
    notes: [u8; 2],
    buffer: usize,
    // at most what `vote` lends
    ghost lent: { (line ≤ 544) × (buffer ≤ 540) },
}

const VOTINGS: [Voting; 6] = [
    Voting {
        level: 12,
        earlier: 5,
        line: 264,
        notes: [6, 12],
        buffer: 260,
    },
    Voting {
        level: 14,
        earlier: 5,
        line: 544,
        notes: [6, 12],
        buffer: 540,
    },
    // Refused with 5: the earlier vote, naming frame 0, and a note.
    Voting {
        level: 12,
        earlier: 16,
        line: 264,
        notes: [6, 12],
        buffer: 260,
    },
    Voting {
        level: 14,
        earlier: 16,
        line: 544,
        notes: [6, 12],
        buffer: 540,
    },
    Voting {
        level: 12,
        earlier: 5,
        line: 264,
        notes: [6, 16],
        buffer: 260,
    },
    Voting {
        level: 14,
        earlier: 5,
        line: 544,
        notes: [6, 16],
        buffer: 540,
    },
];

impl fmt::Display for Voting {
    fn fmt<W: fmt::Write>(&self, f: &mut fmt::Formatter<W>) -> fmt::Result {
        write!(
            f,
            "level {} earlier {} line {} notes{} buffer {}",
            self.level,
            self.earlier,
            self.line,
            Spaced(&self.notes),
            self.buffer
        )
    }
}

pub fn vote_all(rt: &impl Print) -> io::Result<()> {
    for case in &VOTINGS {
        vote(rt, case)?;
    }
    Ok(())
}

fn vote(rt: &impl Print, case: &Voting) -> io::Result<()> {
    let mut line = [165u8; 544];
    let mut buffer = [0u8; 540];
    inputs::count_up(&mut buffer);
    let line = &mut line[..case.line];
    let buffer = &mut buffer[..case.buffer];
    let sent = multiplex::multiplex(case.level, case.earlier, line, &case.notes, buffer);
    crate::answered(rt, "multiplex", case, sent, inputs::sum(line))?;
    buffer.fill(165);
    let taken = extraction::extract(case.level, case.earlier, line, &case.notes, buffer);
    crate::answered(rt, "extract", case, taken, inputs::sum(buffer))
}
