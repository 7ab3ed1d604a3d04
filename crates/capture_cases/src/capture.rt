// Captures written and read through the C face: the example of request 1 byte by byte, each refusal of the writer at its border and in its
// order, and small files whose field at fault is named.
ghost use Rattle.std.specs.Prelude.{◌≤◌};

use std::{fmt, io};
use telling::inputs;
use telling::say::Spaced;

// A write: the bytes of line and label count up from 0, and the file holds 165 in every byte beforehand.
#[derive(Clone, Copy)]
struct Writing {
    level: u64,
    line: usize,
    label: usize,
    labelled: u64,
    file: usize,
    // at most what `write_one` lends
    ghost lent: { (line ≤ 23790) × (label ≤ 33) × (file ≤ 24000) },
}

// A file of so many bytes: these, and zeros after them.
#[derive(Clone, Copy)]
struct Small {
    bytes: usize,
    head: [u8; 11],
    // at most what `read_one` lends
    ghost lent: { bytes ≤ 43 },
}

const WRITINGS: [Writing; 24] = [
    // Case 1's size without a label: just long enough, a byte short, longer.
    Writing {
        level: 2,
        line: 106,
        label: 0,
        labelled: 0,
        file: 113,
    },
    Writing {
        level: 2,
        line: 106,
        label: 0,
        labelled: 0,
        file: 112,
    },
    Writing {
        level: 2,
        line: 106,
        label: 0,
        labelled: 0,
        file: 300,
    },
    // No frames: no label, a label of no bytes, and one that is not looked at.
    Writing {
        level: 2,
        line: 0,
        label: 0,
        labelled: 0,
        file: 7,
    },
    Writing {
        level: 2,
        line: 0,
        label: 0,
        labelled: 1,
        file: 10,
    },
    Writing {
        level: 2,
        line: 0,
        label: 33,
        labelled: 0,
        file: 7,
    },
    Writing {
        level: 2,
        line: 0,
        label: 0,
        labelled: 1,
        file: 9,
    },
    // Labels at their border, and any number that says yes.
    Writing {
        level: 2,
        line: 106,
        label: 32,
        labelled: 1,
        file: 148,
    },
    Writing {
        level: 2,
        line: 106,
        label: 32,
        labelled: 1,
        file: 147,
    },
    Writing {
        level: 2,
        line: 106,
        label: 33,
        labelled: 1,
        file: 148,
    },
    Writing {
        level: 3,
        line: 192,
        label: 1,
        labelled: 256,
        file: 210,
    },
    Writing {
        level: 3,
        line: 192,
        label: 5,
        labelled: 18446744073709551615,
        file: 210,
    },
    // The most frames of each level, and one more.
    Writing {
        level: 2,
        line: 6784,
        label: 0,
        labelled: 0,
        file: 6791,
    },
    Writing {
        level: 2,
        line: 6890,
        label: 0,
        labelled: 0,
        file: 7000,
    },
    Writing {
        level: 3,
        line: 12288,
        label: 2,
        labelled: 1,
        file: 12300,
    },
    Writing {
        level: 3,
        line: 12480,
        label: 0,
        labelled: 0,
        file: 12500,
    },
    Writing {
        level: 4,
        line: 23424,
        label: 0,
        labelled: 0,
        file: 23431,
    },
    Writing {
        level: 4,
        line: 23790,
        label: 0,
        labelled: 0,
        file: 24000,
    },
    // Levels that there are not.
    Writing {
        level: 258,
        line: 0,
        label: 0,
        labelled: 0,
        file: 7,
    },
    Writing {
        level: 18446744073709551615,
        line: 0,
        label: 0,
        labelled: 0,
        file: 7,
    },
    // The order 1, 2, 9, 4: the first wrong thing, and all later ones wrong as well.
    Writing {
        level: 5,
        line: 105,
        label: 33,
        labelled: 1,
        file: 0,
    },
    Writing {
        level: 2,
        line: 105,
        label: 33,
        labelled: 1,
        file: 0,
    },
    Writing {
        level: 2,
        line: 106,
        label: 33,
        labelled: 1,
        file: 0,
    },
    Writing {
        level: 2,
        line: 106,
        label: 32,
        labelled: 1,
        file: 0,
    },
];

const FILES: [Small; 24] = [
    // Cut off, or not there at all.
    Small {
        bytes: 0,
        head: [0, 0, 0, 0, 0, 0, 0, 0, 0, 0, 0],
    },
    Small {
        bytes: 3,
        head: [1, 0, 1, 0, 0, 0, 0, 0, 0, 0, 0],
    },
    Small {
        bytes: 4,
        head: [1, 0, 1, 2, 0, 0, 0, 0, 0, 0, 0],
    },
    Small {
        bytes: 6,
        head: [1, 0, 1, 2, 2, 0, 0, 0, 0, 0, 0],
    },
    Small {
        bytes: 7,
        head: [1, 0, 1, 2, 2, 0, 1, 0, 0, 0, 0],
    },
    Small {
        bytes: 9,
        head: [1, 0, 1, 2, 2, 0, 0, 3, 0, 0, 0],
    },
    // A wrong tag, a wrong length.
    Small {
        bytes: 7,
        head: [2, 0, 1, 2, 2, 0, 0, 0, 0, 0, 0],
    },
    Small {
        bytes: 7,
        head: [1, 1, 0, 2, 2, 0, 0, 0, 0, 0, 0],
    },
    Small {
        bytes: 8,
        head: [1, 0, 2, 2, 2, 2, 0, 0, 0, 0, 0],
    },
    Small {
        bytes: 7,
        head: [1, 0, 1, 2, 3, 0, 0, 0, 0, 0, 0],
    },
    Small {
        bytes: 7,
        head: [1, 0, 1, 2, 1, 0, 0, 0, 0, 0, 0],
    },
    // A label of 32 bytes, of 33, of 0; length bytes the other way round.
    Small {
        bytes: 42,
        head: [1, 0, 1, 2, 2, 0, 0, 3, 0, 32, 0],
    },
    Small {
        bytes: 43,
        head: [1, 0, 1, 2, 2, 0, 0, 3, 0, 33, 0],
    },
    Small {
        bytes: 10,
        head: [1, 0, 1, 2, 2, 0, 0, 3, 0, 0, 0],
    },
    Small {
        bytes: 7,
        head: [1, 0, 1, 2, 2, 0, 0, 0, 0, 0, 0],
    },
    Small {
        bytes: 10,
        head: [1, 0, 1, 2, 2, 0, 0, 3, 1, 0, 0],
    },
    // Something after the last field.
    Small {
        bytes: 8,
        head: [1, 0, 1, 2, 2, 0, 0, 0, 0, 0, 0],
    },
    Small {
        bytes: 10,
        head: [1, 0, 1, 2, 2, 0, 0, 4, 0, 0, 0],
    },
    Small {
        bytes: 11,
        head: [1, 0, 1, 2, 2, 0, 0, 3, 0, 0, 0],
    },
    Small {
        bytes: 13,
        head: [1, 0, 1, 2, 2, 0, 0, 3, 0, 0, 3],
    },
    // The order 9, 1, 2.
    Small {
        bytes: 8,
        head: [1, 0, 1, 9, 2, 0, 0, 0, 0, 0, 0],
    },
    Small {
        bytes: 8,
        head: [1, 0, 1, 9, 2, 0, 1, 0, 0, 0, 0],
    },
    Small {
        bytes: 8,
        head: [1, 0, 1, 2, 2, 0, 1, 0, 0, 0, 0],
    },
    Small {
        bytes: 7,
        head: [1, 0, 1, 0, 2, 0, 0, 0, 0, 0, 0],
    },
];

impl fmt::Display for Writing {
    fn fmt<W: fmt::Write>(&self, f: &mut fmt::Formatter<W>) -> fmt::Result {
        write!(
            f,
            "level {} line {} label {} labelled {} file {}",
            self.level, self.line, self.label, self.labelled, self.file
        )
    }
}

pub fn write_all(rt: &impl Print) -> io::Result<()> {
    for case in &WRITINGS {
        write_one(rt, case)?;
    }
    Ok(())
}

pub fn read_all(rt: &impl Print) -> io::Result<()> {
    for case in &FILES {
        read_one(rt, case)?;
    }
    Ok(())
}

fn write_one(rt: &impl Print, case: &Writing) -> io::Result<()> {
    let mut line = [0u8; 23790];
    let mut label = [0u8; 33];
    let mut file = [165u8; 24000];
    inputs::count_up(&mut line);
    inputs::count_up(&mut label);
    let file = &mut file[..case.file];
    let mut answer = [0u64; 2];
    let refusal = spritbobbin::spritbobbin_capture_write(
        case.level,
        &line[..case.line],
        &label[..case.label],
        case.labelled,
        file,
        &mut answer,
    );
    let [bytes, byte] = answer;
    let sum = inputs::sum(file);
    println!(rt; "write {case}: refusal {refusal} bytes {bytes} byte {byte} sum {sum}")?;
    read_back(rt, file, bytes)
}

// What was written is read: so many bytes of the file.
fn read_back(rt: &impl Print, file: &[u8], bytes: u64) -> io::Result<()> {
    let Some(written) = file.get(..bytes as usize) else {
        return Ok(());
    };
    print!(rt; "read back {bytes}")?;
    read(rt, written)
}

fn read_one(rt: &impl Print, case: &Small) -> io::Result<()> {
    let mut file = [0u8; 43];
    file[..11].copy_from_slice(&case.head);
    print!(rt; "read{}", Spaced(&case.head))?;
    read(rt, &file[..case.bytes])
}

fn read(rt: &impl Print, file: &[u8]) -> io::Result<()> {
    let mut answer = [0u64; 7];
    let refusal = spritbobbin::spritbobbin_capture_read(file, &mut answer);
    let [level, line, line_bytes, labelled, label, label_bytes, byte] = answer;
    let bytes = file.len();
    print!(rt; " bytes {bytes}: refusal {refusal} level {level} line {line} {line_bytes}")?;
    println!(rt; " labelled {labelled} label {label} {label_bytes} byte {byte}")
}

// Request 1's example: the capture of case 1's line without a label, all its bytes.
pub fn example(rt: &impl Print) -> io::Result<()> {
    let mut line = [0u8; 106];
    let _ = multiplex::multiplex(2, 0, &mut line, &[0x20], &[0; 104]);
    let mut file = [0u8; 113];
    let mut answer = [0u64; 2];
    let refusal = spritbobbin::spritbobbin_capture_write(2, &line, &[0], 0, &mut file, &mut answer);
    let [bytes, _byte] = answer;
    println!(rt;
        "case 1 kept: refusal {refusal} bytes {bytes}{}",
        Spaced(&file)
    )
}
