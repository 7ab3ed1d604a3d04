// What a call that goes by notes is judged by, refusals 2 to 5, and what it answers. Multiplexing and extracting by notes share it; multiplexing
// then asks for the national bits, refusal 10.
ghost use Rattle.std.specs.Prelude.{◌≡◌, ◌^◌, ◌<◌, position};
ghost use Rattle.levels.specs.Table.{Shared};
ghost use Rattle.levels.specs.Faults.{overfull, unset, bad_earlier, fault_of, send_fault_of, fault_in, naming_none};

use crate::{order, sizes};
use refusal::Refusal;
use table::Row;

// Why a call is refused, and the frame that the refusal names: 0 where it names none.
#[derive(Clone, Copy, Debug, PartialEq, Eq, Hash)]
pub struct Refused {
    pub refusal: Refusal,
    pub frame: usize,
}

impl From<Refusal> for Refused {
    ghost from_gives = { λ refusal refused. refused ≡ naming_none refusal };

    // A refusal that names no frame.
    fn from(refusal: Refusal) -> Refused {
        Refused { refusal, frame: 0 }
    }
}

// Whether a note has a bit that the level has not.
fn overfull(row: Row, note: u8) -> bool
    requires { Shared row }
    ensures { result ≡ overfull row note }
{
    let limit: usize = 1 << (4 + (row.alarms + row.nationals));
    limit <= usize::from(note)
}

// Whether a note has a national bit of the level that is not 1.
fn unset(row: Row, note: u8) -> bool
    requires { Shared row }
    ensures { result ≡ unset row note }
{
    let size: usize = 1 << row.nationals;
    (usize::from(note) >> 5) % size != size - 1
}

// The first frame whose note has a bit that the level has not.
fn first_faulty(row: Row, notes: &[u8]) -> Option<usize>
    requires { Shared row }
    ensures { result ≡ position (overfull row) notes.now }
{
    notes.iter().position(|note| overfull(row, *note))
}

// The first frame whose note has a national bit of the level that is not 1.
fn first_unset(row: Row, notes: &[u8]) -> Option<usize>
    requires { Shared row }
    ensures { result ≡ position (unset row) notes.now }
{
    notes.iter().position(|note| unset(row, *note))
}

// Whether the vote before frame 0 is over 15, where the level looks at it.
pub fn bad_earlier(row: Row, earlier: u64) -> bool
    ensures { result ≡ bad_earlier row earlier }
{
    order::has_negative(row) && 15 < earlier
}

// The first of 2 to 5 that applies to an earlier vote, a line of so many bytes, these notes and a buffer of so many bytes.
pub fn fault_of(
    row: Row,
    earlier: u64,
    line: usize,
    notes: &[u8],
    buffer: usize,
) -> Result<(), Refused>
    requires { Shared row × (buffer < 2 ^ 63) }
    ensures { fault_in result ≡ fault_of row earlier line notes.now buffer }
{
    sizes::size_refusal(row, line, notes.len(), buffer)?;
    if bad_earlier(row, earlier) {
        return Err(Refused::from(Refusal::NoteBits));
    }
    match first_faulty(row, notes) {
        Some(f) => Err(Refused {
            refusal: Refusal::NoteBits,
            frame: f,
        }),
        None => Ok(()),
    }
}

// Multiplexing's: the same, then 10.
pub fn send_fault_of(
    row: Row,
    earlier: u64,
    line: usize,
    notes: &[u8],
    buffer: usize,
) -> Result<(), Refused>
    requires { Shared row × (buffer < 2 ^ 63) }
    ensures { fault_in result ≡ send_fault_of row earlier line notes.now buffer }
{
    fault_of(row, earlier, line, notes, buffer)?;
    match first_unset(row, notes) {
        Some(first) => Err(Refused {
            refusal: Refusal::National,
            frame: first,
        }),
        None => Ok(()),
    }
}
