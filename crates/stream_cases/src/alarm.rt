// Stretches at their borders: the limit of each level, the begin and the end of the alarm, what is reported, and each refusal.
use crate::stream;
use std::{fmt, io};

// A state that hunts, all zero but for its stretch, and a piece of a slice of one byte.
#[derive(Clone, Copy)]
struct Stretched {
    level: u64,
    digits: u64,
    zeros: u64,
    few: u64,
    alarm: u64,
    fill: u8,
    first: u64,
    count: u64,
}

const STRETCHES: [Stretched; 23] = [
    // The limit of each level, with a 1 and with a 0 as the last digit.
    Stretched {
        level: 2,
        digits: 847,
        zeros: 4,
        few: 1,
        alarm: 0,
        fill: 255,
        first: 0,
        count: 1,
    },
    Stretched {
        level: 2,
        digits: 847,
        zeros: 4,
        few: 1,
        alarm: 0,
        fill: 0,
        first: 0,
        count: 1,
    },
    Stretched {
        level: 2,
        digits: 847,
        zeros: 5,
        few: 1,
        alarm: 0,
        fill: 255,
        first: 0,
        count: 1,
    },
    Stretched {
        level: 3,
        digits: 1535,
        zeros: 4,
        few: 1,
        alarm: 0,
        fill: 255,
        first: 0,
        count: 1,
    },
    Stretched {
        level: 3,
        digits: 1535,
        zeros: 4,
        few: 1,
        alarm: 0,
        fill: 0,
        first: 0,
        count: 1,
    },
    Stretched {
        level: 4,
        digits: 2927,
        zeros: 5,
        few: 1,
        alarm: 0,
        fill: 255,
        first: 0,
        count: 1,
    },
    Stretched {
        level: 4,
        digits: 2927,
        zeros: 5,
        few: 1,
        alarm: 0,
        fill: 0,
        first: 0,
        count: 1,
    },
    // Begun by two in a row, ended by two in a row, and else as it was.
    Stretched {
        level: 2,
        digits: 847,
        zeros: 0,
        few: 0,
        alarm: 0,
        fill: 255,
        first: 0,
        count: 1,
    },
    Stretched {
        level: 2,
        digits: 847,
        zeros: 5,
        few: 0,
        alarm: 1,
        fill: 255,
        first: 0,
        count: 1,
    },
    Stretched {
        level: 2,
        digits: 847,
        zeros: 5,
        few: 1,
        alarm: 1,
        fill: 255,
        first: 0,
        count: 1,
    },
    Stretched {
        level: 2,
        digits: 847,
        zeros: 0,
        few: 0,
        alarm: 1,
        fill: 255,
        first: 0,
        count: 1,
    },
    // A digit before the end, and digits after it.
    Stretched {
        level: 2,
        digits: 846,
        zeros: 4,
        few: 1,
        alarm: 0,
        fill: 255,
        first: 0,
        count: 1,
    },
    Stretched {
        level: 2,
        digits: 846,
        zeros: 4,
        few: 1,
        alarm: 0,
        fill: 255,
        first: 0,
        count: 8,
    },
    // An empty piece says the alarm, and a refused one does not.
    Stretched {
        level: 2,
        digits: 0,
        zeros: 0,
        few: 0,
        alarm: 1,
        fill: 0,
        first: 0,
        count: 0,
    },
    Stretched {
        level: 2,
        digits: 0,
        zeros: 0,
        few: 0,
        alarm: 1,
        fill: 0,
        first: 9,
        count: 0,
    },
    // Refused with 6.
    Stretched {
        level: 2,
        digits: 848,
        zeros: 0,
        few: 0,
        alarm: 0,
        fill: 0,
        first: 0,
        count: 1,
    },
    Stretched {
        level: 3,
        digits: 1536,
        zeros: 0,
        few: 0,
        alarm: 0,
        fill: 0,
        first: 0,
        count: 1,
    },
    Stretched {
        level: 4,
        digits: 2928,
        zeros: 0,
        few: 0,
        alarm: 0,
        fill: 0,
        first: 0,
        count: 1,
    },
    Stretched {
        level: 2,
        digits: 847,
        zeros: 847,
        few: 0,
        alarm: 0,
        fill: 0,
        first: 0,
        count: 1,
    },
    Stretched {
        level: 2,
        digits: 3,
        zeros: 4,
        few: 0,
        alarm: 1,
        fill: 0,
        first: 0,
        count: 1,
    },
    Stretched {
        level: 2,
        digits: 0,
        zeros: 0,
        few: 2,
        alarm: 0,
        fill: 0,
        first: 0,
        count: 1,
    },
    Stretched {
        level: 2,
        digits: 0,
        zeros: 0,
        few: 0,
        alarm: 2,
        fill: 0,
        first: 0,
        count: 1,
    },
    Stretched {
        level: 2,
        digits: 0,
        zeros: 0,
        few: 18446744073709551615,
        alarm: 1,
        fill: 0,
        first: 0,
        count: 1,
    },
];

impl fmt::Display for Stretched {
    fn fmt<W: fmt::Write>(&self, f: &mut fmt::Formatter<W>) -> fmt::Result {
        write!(
            f,
            "level {} digits {} zeros {} few {} alarm {} fill {} first {} count {}",
            self.level,
            self.digits,
            self.zeros,
            self.few,
            self.alarm,
            self.fill,
            self.first,
            self.count
        )
    }
}

pub fn stretch_all(rt: &impl Print) -> io::Result<()> {
    for case in &STRETCHES {
        stretch(rt, case)?;
    }
    Ok(())
}

fn stretch(rt: &impl Print, case: &Stretched) -> io::Result<()> {
    let mut state = [
        case.level,
        0,
        0,
        0,
        0,
        case.digits,
        case.zeros,
        case.few,
        case.alarm,
    ];
    let mut frame = [0u8; 366];
    let piece = [case.fill];
    let fed = stream::feed(&mut state, &mut frame, &piece, case.first, case.count);
    println!(rt; "stretch {case}{fed}")
}
