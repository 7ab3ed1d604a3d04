// A multiplexer that acts on its decisions a frame late: its control digits say each frame's own, and its justification places go by those of the frame
// before. For demonstrations and tests, which need the faulty line. specs/Late.antt says exactly which line that is.
#![tactic(auto)]

ghost use Rattle.std.specs.Prelude.{◌≡◌, ◌≤◌, length};
ghost use Rattle.levels.specs.Faults.{numbers_of};
ghost use Rattle.late.specs.Late.{Delayed, LateMet};

use levels::faults::Refused;

// The most frames of a line, and the most bytes: 64 frames of level 4.
const FRAMES: usize = 64;

const BYTES: usize = 23424;

// Room for the late notes, and for the line of a right multiplexer.
fn no_notes() -> [u8; 64]
    ensures { 64 ≡ length result }
{
    [0; 64]
}

fn no_line() -> [u8; 23424]
    ensures { 23424 ≡ length result }
{
    [0; 23424]
}

// The late notes, at the beginning of their room.
fn delayed(notes: &[u8], before: u64) -> [u8; 64]
    requires { length notes.now ≤ 64 }
    ensures { Delayed before notes.now result }
{
    let frames = notes.len();
    let mut late = no_notes();
    workbench::delay(&mut late[0..frames], notes, (before % 16) as u8);
    late
}

// A line and notes that are short enough for their rooms.
fn late_in_room(
    level: u64,
    earlier: u64,
    line: &mut [u8],
    notes: &[u8],
    buffer: &[u8],
) -> Result<[usize; 4], Refused>
    requires { (length notes.now ≤ 64) × (length line.old ≤ 23424) }
    ensures { LateMet level earlier line.old notes.now buffer.now (numbers_of result) line.new }
{
    let late = delayed(notes, earlier);
    let frames = notes.len();
    let bytes = line.len();
    let mut said = no_line();
    workbench::late_line(
        level,
        earlier,
        line,
        &mut said[0..bytes],
        notes,
        &late[0..frames],
        buffer,
    )
}

// The line of the late multiplexer; any level number, any lengths. What has no room is refused, as multiplexing refuses it.
pub fn late_multiplex(
    level: u64,
    earlier: u64,
    line: &mut [u8],
    notes: &[u8],
    buffer: &[u8],
) -> Result<[usize; 4], Refused>
    ensures { LateMet level earlier line.old notes.now buffer.now (numbers_of result) line.new }
{
    if FRAMES < notes.len() || BYTES < line.len() {
        multiplex::multiplex(level, earlier, line, notes, buffer)
    } else {
        late_in_room(level, earlier, line, notes, buffer)
    }
}
