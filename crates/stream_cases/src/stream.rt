// Pieces fed to receivers: each refusal of a piece at its border, and worked case 11 whole and in pieces of 1, 7 and 1,000 digits.
ghost use Rattle.std.specs.Prelude.{◌≤◌};

use std::{fmt, io};
use telling::say::Spaced;

// A state whose frame store is zero, and a piece of a slice of zeros.
#[derive(Clone, Copy)]
struct Feeding {
    level: u64,
    window: u64,
    seen: u64,
    mode: u64,
    place: u64,
    slice: usize,
    first: u64,
    count: u64,
    // a byte more than a piece may have
    ghost lent: { slice ≤ 65537 },
}

// What a feed answered, and the state's numbers after it.
#[derive(Clone, Copy)]
pub struct Fed {
    refusal: u64,
    taken: u64,
    ready: u64,
    alarm: u64,
    words: u64,
    state: [u64; 9],
}

const FEEDINGS: [Feeding; 18] = [
    Feeding {
        level: 2,
        window: 1023,
        seen: 10,
        mode: 6,
        place: 847,
        slice: 1,
        first: 0,
        count: 8,
    },
    Feeding {
        level: 2,
        window: 1024,
        seen: 10,
        mode: 6,
        place: 847,
        slice: 1,
        first: 0,
        count: 8,
    },
    Feeding {
        level: 2,
        window: 1023,
        seen: 11,
        mode: 6,
        place: 847,
        slice: 1,
        first: 0,
        count: 8,
    },
    Feeding {
        level: 2,
        window: 1023,
        seen: 10,
        mode: 7,
        place: 847,
        slice: 1,
        first: 0,
        count: 8,
    },
    Feeding {
        level: 2,
        window: 1023,
        seen: 10,
        mode: 6,
        place: 848,
        slice: 1,
        first: 0,
        count: 8,
    },
    Feeding {
        level: 2,
        window: 1023,
        seen: 9,
        mode: 6,
        place: 847,
        slice: 1,
        first: 0,
        count: 8,
    },
    Feeding {
        level: 2,
        window: 0,
        seen: 0,
        mode: 0,
        place: 1,
        slice: 1,
        first: 0,
        count: 8,
    },
    Feeding {
        level: 4,
        window: 2000,
        seen: 11,
        mode: 0,
        place: 0,
        slice: 1,
        first: 0,
        count: 5,
    },
    Feeding {
        level: 2,
        window: 0,
        seen: 10,
        mode: 3,
        place: 837,
        slice: 1,
        first: 7,
        count: 1,
    },
    Feeding {
        level: 2,
        window: 0,
        seen: 0,
        mode: 0,
        place: 0,
        slice: 65537,
        first: 0,
        count: 0,
    },
    Feeding {
        level: 2,
        window: 0,
        seen: 0,
        mode: 0,
        place: 0,
        slice: 1,
        first: 1,
        count: 8,
    },
    Feeding {
        level: 2,
        window: 0,
        seen: 0,
        mode: 0,
        place: 0,
        slice: 1,
        first: 18446744073709551615,
        count: 2,
    },
    // Words tested: from the L-th digit since reset on.
    Feeding {
        level: 2,
        window: 0,
        seen: 0,
        mode: 0,
        place: 0,
        slice: 2,
        first: 0,
        count: 9,
    },
    Feeding {
        level: 2,
        window: 0,
        seen: 0,
        mode: 0,
        place: 0,
        slice: 2,
        first: 0,
        count: 10,
    },
    Feeding {
        level: 2,
        window: 0,
        seen: 0,
        mode: 0,
        place: 0,
        slice: 2,
        first: 0,
        count: 11,
    },
    Feeding {
        level: 2,
        window: 0,
        seen: 10,
        mode: 0,
        place: 0,
        slice: 1,
        first: 0,
        count: 8,
    },
    // The order 6, 2, 7.
    Feeding {
        level: 2,
        window: 0,
        seen: 0,
        mode: 7,
        place: 0,
        slice: 65537,
        first: 18446744073709551615,
        count: 1,
    },
    Feeding {
        level: 2,
        window: 0,
        seen: 0,
        mode: 0,
        place: 0,
        slice: 65537,
        first: 18446744073709551615,
        count: 1,
    },
];

impl fmt::Display for Feeding {
    fn fmt<W: fmt::Write>(&self, f: &mut fmt::Formatter<W>) -> fmt::Result {
        write!(
            f,
            "level {} window {} seen {} mode {} place {} slice {} first {} count {}",
            self.level,
            self.window,
            self.seen,
            self.mode,
            self.place,
            self.slice,
            self.first,
            self.count
        )
    }
}

impl fmt::Display for Fed {
    fn fmt<W: fmt::Write>(&self, f: &mut fmt::Formatter<W>) -> fmt::Result {
        write!(
            f,
            ": refusal {} taken {} ready {} alarm {} words {} state{}",
            self.refusal,
            self.taken,
            self.ready,
            self.alarm,
            self.words,
            Spaced(&self.state)
        )
    }
}

pub fn feed_all(rt: &impl Print) -> io::Result<()> {
    for case in &FEEDINGS {
        feed_one(rt, case)?;
    }
    Ok(())
}

fn feed_one(rt: &impl Print, case: &Feeding) -> io::Result<()> {
    let zeros = [0u8; 65537];
    let mut state = [
        case.level,
        case.window,
        case.seen,
        case.mode,
        case.place,
        0,
        0,
        0,
        0,
    ];
    let mut frame = [0u8; 366];
    let piece = &zeros[..case.slice];
    let fed = feed(&mut state, &mut frame, piece, case.first, case.count);
    println!(rt; "feed {case}{fed}")
}

// The C call, on a slice lent for the piece.
pub fn feed(
    state: &mut [u64; 9],
    frame: &mut [u8; 366],
    piece: &[u8],
    first: u64,
    count: u64,
) -> Fed {
    let mut answer = [0u64; 4];
    let refusal = spritbobbin::spritbobbin_receiver_feed(
        state,
        frame,
        piece,
        first,
        count,
        &mut answer,
    );
    let [taken, ready, alarm, words] = answer;
    Fed {
        refusal,
        taken,
        ready,
        alarm,
        words,
        state: *state,
    }
}

// Case 1's line four times over, whole and in pieces of 1, 7 and 1,000 digits: a line to each frame that is ready.
pub fn case_11(rt: &impl Print) -> io::Result<()> {
    let line = four_frames();
    for size in [3392, 1, 7, 1000] {
        walk(rt, &line, size)?;
    }
    Ok(())
}

fn four_frames() -> [u8; 424] {
    let mut one = [0u8; 106];
    let _ = multiplex::multiplex(2, 0, &mut one, &[0x20], &[0; 104]);
    let mut line = [0u8; 424];
    for frame in line.chunks_exact_mut(106) {
        frame.copy_from_slice(&one);
    }
    line
}

// In pieces of at most so many digits: at most a call for each digit of the line.
fn walk(rt: &impl Print, line: &[u8; 424], size: u64) -> io::Result<()> {
    let mut state = [0u64; 9];
    let mut frame = [0u8; 366];
    spritbobbin::spritbobbin_receiver_fresh(2, &mut state, &mut frame);
    let mut first: u64 = 0;
    for _turn in 0..3392 {
        if 3392 <= first {
            return Ok(());
        }
        let fed = feed(&mut state, &mut frame, line, first, size.min(3392 - first));
        first = first.wrapping_add(fed.taken);
        if fed.ready == 1 {
            ready(rt, size, first, fed, &frame)?;
        }
    }
    Ok(())
}

fn ready(rt: &impl Print, size: u64, digits: u64, fed: Fed, frame: &[u8; 366]) -> io::Result<()> {
    println!(rt;
        "case 11 pieces {size} digits {digits}{fed} frame{}",
        Spaced(&frame[..106])
    )
}
