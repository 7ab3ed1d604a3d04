// Pieces fed to the finder of 2048 kbit/s frames: each refusal at its border, and frames that are found, lost and found again, whole and in
// pieces of 1, 7 and 1,000 digits.
ghost use Rattle.std.specs.Prelude.{◌≤◌};

use std::{fmt, io};
use telling::say::Spaced;

// A state, and a piece of a slice of zeros.
#[derive(Clone, Copy)]
struct Hunting {
    window: u64,
    seen: u64,
    mode: u64,
    place: u64,
    slice: usize,
    first: u64,
    count: u64,
    // a byte more than a piece may have
    ghost lent: { slice ≤ 65537 },
}

const HUNTINGS: [Hunting; 18] = [
    Hunting {
        window: 127,
        seen: 7,
        mode: 5,
        place: 511,
        slice: 1,
        first: 0,
        count: 8,
    },
    Hunting {
        window: 128,
        seen: 7,
        mode: 5,
        place: 511,
        slice: 1,
        first: 0,
        count: 8,
    },
    Hunting {
        window: 127,
        seen: 8,
        mode: 5,
        place: 511,
        slice: 1,
        first: 0,
        count: 8,
    },
    Hunting {
        window: 127,
        seen: 7,
        mode: 6,
        place: 511,
        slice: 1,
        first: 0,
        count: 8,
    },
    Hunting {
        window: 127,
        seen: 7,
        mode: 5,
        place: 512,
        slice: 1,
        first: 0,
        count: 8,
    },
    Hunting {
        window: 127,
        seen: 6,
        mode: 5,
        place: 511,
        slice: 1,
        first: 0,
        count: 8,
    },
    Hunting {
        window: 127,
        seen: 7,
        mode: 0,
        place: 1,
        slice: 1,
        first: 0,
        count: 8,
    },
    Hunting {
        window: 127,
        seen: 3,
        mode: 0,
        place: 0,
        slice: 1,
        first: 0,
        count: 8,
    },
    Hunting {
        window: 27,
        seen: 7,
        mode: 1,
        place: 249,
        slice: 1,
        first: 0,
        count: 8,
    },
    Hunting {
        window: 27,
        seen: 7,
        mode: 1,
        place: 250,
        slice: 1,
        first: 0,
        count: 8,
    },
    Hunting {
        window: 27,
        seen: 7,
        mode: 2,
        place: 249,
        slice: 1,
        first: 0,
        count: 8,
    },
    Hunting {
        window: 27,
        seen: 7,
        mode: 2,
        place: 250,
        slice: 1,
        first: 0,
        count: 8,
    },
    Hunting {
        window: 27,
        seen: 7,
        mode: 2,
        place: 512,
        slice: 1,
        first: 0,
        count: 8,
    },
    Hunting {
        window: 0,
        seen: 0,
        mode: 0,
        place: 0,
        slice: 65536,
        first: 0,
        count: 524288,
    },
    Hunting {
        window: 0,
        seen: 0,
        mode: 0,
        place: 0,
        slice: 65537,
        first: 0,
        count: 0,
    },
    Hunting {
        window: 0,
        seen: 0,
        mode: 0,
        place: 0,
        slice: 1,
        first: 1,
        count: 8,
    },
    Hunting {
        window: 0,
        seen: 0,
        mode: 0,
        place: 0,
        slice: 1,
        first: 18446744073709551615,
        count: 2,
    },
    Hunting {
        window: 128,
        seen: 0,
        mode: 0,
        place: 0,
        slice: 65537,
        first: 18446744073709551615,
        count: 1,
    },
];

impl fmt::Display for Hunting {
    fn fmt<W: fmt::Write>(&self, f: &mut fmt::Formatter<W>) -> fmt::Result {
        write!(
            f,
            "window {} seen {} mode {} place {} slice {} first {} count {}",
            self.window, self.seen, self.mode, self.place, self.slice, self.first, self.count
        )
    }
}

pub fn hunt_all(rt: &impl Print) -> io::Result<()> {
    for case in &HUNTINGS {
        hunt(rt, case)?;
    }
    Ok(())
}

fn hunt(rt: &impl Print, case: &Hunting) -> io::Result<()> {
    let zeros = [0u8; 65537];
    let mut state = [case.window, case.seen, case.mode, case.place];
    let mut answer = [0u64; 2];
    let refusal = spritbobbin::finder_face::spritbobbin_finder_feed(
        &mut state,
        &zeros[..case.slice],
        case.first,
        case.count,
        &mut answer,
    );
    print!(rt; "hunt {case}")?;
    hunted(rt, refusal, state, answer)
}

fn hunted(rt: &impl Print, refusal: u64, state: [u64; 4], answer: [u64; 2]) -> io::Result<()> {
    let [taken, aligned] = answer;
    println!(rt;
        ": refusal {refusal} taken {taken} aligned {aligned} state{}",
        Spaced(&state)
    )
}

// Twenty frames, whole and in pieces of 1, 7 and 1,000 digits.
pub fn frames(rt: &impl Print) -> io::Result<()> {
    let line = twenty_frames();
    for size in [5120, 1, 7, 1000] {
        follow(rt, &line, size)?;
    }
    Ok(())
}

// Frames of ones in pairs; those of pairs 3, 4 and 5 have no word.
fn twenty_frames() -> [u8; 640] {
    let mut line = [255u8; 640];
    for word in [0, 64, 128, 384, 448, 512, 576] {
        line[word] = 155;
    }
    line
}

// In pieces of at most so many digits: at most a call for each digit of the line; a line to each change of alignment.
fn follow(rt: &impl Print, line: &[u8; 640], size: u64) -> io::Result<()> {
    let mut state = [0u64; 4];
    let mut answer = [0u64; 2];
    spritbobbin::finder_face::spritbobbin_finder_fresh(&mut state);
    let mut first: u64 = 0;
    let mut aligned: u64 = 0;
    for _turn in 0..5120 {
        if 5120 <= first {
            return Ok(());
        }
        let refusal = spritbobbin::finder_face::spritbobbin_finder_feed(
            &mut state,
            line,
            first,
            size.min(5120 - first),
            &mut answer,
        );
        first = first.wrapping_add(answer[0]);
        if answer[1] != aligned {
            print!(rt; "frames pieces {size} digits {first}")?;
            hunted(rt, refusal, state, answer)?;
        }
        aligned = answer[1];
    }
    Ok(())
}
