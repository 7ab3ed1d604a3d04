// The tributaries of a line, frame by frame and set by set, all four at once: each set hands its run to the four writers, and each frame acts on
// its own note and the preceding one. A writer's end leaves its quarter whole.
ghost use Rattle.std.specs.Prelude.{◌≡◌, ◌++◌, ◌+◌, ◌*◌, ◌-◌, ◌/◌, ◌<◌, ◌≤◌, length, replicate};
ghost use Rattle.digits.specs.Digits.{bytes_of};
ghost use Rattle.words.specs.Words.{out_from};
ghost use Rattle.levels.specs.Sizes.{Fits};
ghost use Rattle.unweave.specs.Quarters.{Within};
ghost use Rattle.extraction.specs.Handing.{Handing};

use levels::order;
use table::Row;
use unweave::Writers;
use words::Writer;

// The sets of frame f.
fn extract_frame(
    row: Row,
    earlier: u64,
    line: &[u8],
    notes: &[u8],
    f: usize,
    buffer: &mut [u8],
    q: usize,
    w0: Writers,
) -> Writers
    requires { (f < length notes.now)
        × Handing row earlier line.now notes.now q (f * (row.digits / 4)) buffer.old w0 }
    ensures { Handing row earlier line.now notes.now q ((f + 1) * (row.digits / 4)) buffer.new result }
{
    let note = order::note_of(notes, f);
    let preceding = order::preceding_of(earlier, notes, f);
    let start = f * row.digits;
    let mut w = w0;
    for s in 0..row.sets {
        let p = start + s * row.set;
        w = unweave::receive_set(row, line, p, s, preceding, note, buffer, q, w);
    }
    w
}

// All frames of the line. Quarters have q bytes.
pub fn extract_frames(
    row: Row,
    earlier: u64,
    line: &[u8],
    notes: &[u8],
    buffer: &mut [u8],
    q: usize,
) -> Writers
    requires { Fits row (length line.now) (length notes.now) q
        × (length buffer.old ≡ 4 * q) }
    ensures { Handing row earlier line.now notes.now q (2 * length line.now) buffer.new result }
{
    let first = Writer {
        at: 0,
        held: 0,
        fill: 0,
    };
    let mut w = Writers {
        a: first,
        b: first,
        c: first,
        d: first,
    };
    for f in 0..notes.len() {
        w = extract_frame(row, earlier, line, notes, f, buffer, q, w);
    }
    w
}

// The end of a quarter: the digits that its writer still holds, zeros up to the end of their byte, and zero bytes. Answers how many digits came.
pub fn finish_quarter(quarter: &mut [u8], w: Writer) -> usize
    requires { Within (length quarter.old) 0 w × (8 * w.at + w.fill ≤ 65536) }
    ensures { (result ≡ 8 * w.at + w.fill)
        × (quarter.new
        ≡ bytes_of
        (length quarter.old)
        (out_from 0 quarter.old w ++ replicate (8 * length quarter.old - (8 * w.at + w.fill)) 0)) }
{
    let count = 8 * w.at + w.fill;
    let end = words::finish(quarter, w);
    quarter[end.at..].fill(0);
    count
}
