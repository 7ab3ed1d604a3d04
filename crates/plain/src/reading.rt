// What is received: the notes of the frames, the wrong digits of the frame alignment signals, the votes.
ghost use Rattle.std.specs.Prelude.{◌≡◌, cond, [], ◌∷◌, ℕ, ◌+◌, ◌*◌, ◌%◌, ◌<◌, ◌≤◌, min, ltb, length, get_or};
ghost use Rattle.engine.specs.Engine.{place_in, received, wrong_by, votes_by, wrong_to, alarm_in, national_in, note_in};
ghost use Rattle.engine.specs.Engine.{notes_to, alignment_to, dissent_in, dissents_to};
ghost use Rattle.engine.specs.Walk.{Regular, Fits};
ghost use Rattle.plain.specs.Walk.{Within, is_control, Voted, decisions_of, minorities_of, services_in, four_sums};

use engine::frame::Place;
use engine::{Errors, frame, packed};
use table::Row;

// What a frame says: its note, the wrong digits of its alignment signal, the dissenting digits of each tributary.
#[derive(Clone, Copy)]
pub struct Said {
    pub note: u8,
    pub wrong: usize,
    pub dissent: [usize; 4],
}

// 1 where digit d at place q of a frame is a wrong digit of the frame alignment signal.
fn wrong_by(row: Row, q: usize, d: u8) -> usize
    requires { Regular row × (q < row.digits) }
    ensures { (result ≡ wrong_by row q d (place_in row q)) × (result ≤ 1) }
{
    match frame::place_in(row, q) {
        Place::Alignment => usize::from(d != frame::word_digit(row, q)),
        _ => 0,
    }
}

fn is_control(place: Place) -> bool
    ensures { result ≡ is_control place }
{
    matches!(place, Place::Control)
}

// Digit d at place q of a frame is counted, where it is a control digit: at 4 * d + j, where j is its tributary.
fn count_vote(row: Row, q: usize, d: u8, votes: &mut [usize; 8])
    requires { Regular row × (q < row.digits) × (d < 2) × (length votes.old ≡ 8) × (get_or votes.old (4 * d + q % 4) 0 < 1000000) }
    ensures { (length votes.new ≡ 8)
        × ((j v : ℕ) → j < 4 → v < 2
        → get_or votes.new (4 * v + j) 0 ≡ get_or votes.old (4 * v + j) 0 + votes_by j v q d (place_in row q)) }
{
    if is_control(frame::place_in(row, q)) {
        let i = 4 * d as usize + q % 4;
        votes[i] += 1;
    }
}

// Place q of frame f: its control digit is counted. Answers 1 where it is a wrong digit of the frame alignment signal.
fn hear_place(row: Row, line: &[u8], f: usize, q: usize, votes: &mut [usize; 8]) -> usize
    requires { Regular row × (q < row.digits) × Within row (length line.now) f × Voted row line.now f q votes.old }
    ensures { (result ≡ wrong_by row q (received row line.now f q) (place_in row q))
        × (result ≤ 1)
        × Voted row line.now f (q + 1) votes.new }
{
    let d = packed::digit_from(line, 0, f * row.digits + q);
    count_vote(row, q, d, votes);
    wrong_by(row, q, d)
}

// Frame f, place by place: its control digits are counted. Answers the wrong digits of its alignment signal.
fn hear_frame(row: Row, line: &[u8], f: usize, votes: &mut [usize; 8]) -> usize
    requires { Regular row × Within row (length line.now) f × Voted row line.now f 0 votes.old }
    ensures { (result ≡ wrong_to row line.now f row.digits)
        × (result ≤ row.digits)
        × Voted row line.now f row.digits votes.new }
{
    let mut wrong: usize = 0;
    for q in 0..row.digits {
        wrong += hear_place(row, line, f, q, votes);
    }
    wrong
}

// The majority for tributary j: 1 where more of its control digits are 1 than 0.
fn decision(votes: &[usize; 8], j: usize) -> u8
    requires { j < 4 }
    ensures { (result ≡ cond (ltb (get_or votes.now j 0) (get_or votes.now (4 + j) 0)) 1 0) × (result < 2) }
{
    u8::from(votes[j] < votes[4 + j])
}

// The digits of the minority.
fn minority(votes: &[usize; 8], j: usize) -> usize
    requires { j < 4 }
    ensures { result ≡ min (get_or votes.now j 0) (get_or votes.now (4 + j) 0) }
{
    votes[j].min(votes[4 + j])
}

// The four decisions as bits 0 to 3.
#[tactic(auto, unfolding(crate::specs::Walk::decisions_of))]
fn decisions(votes: &[usize; 8]) -> u8
    ensures { (result ≡ decisions_of votes.now) × (result < 16) }
{
    decision(votes, 0) + 2 * decision(votes, 1) + 4 * decision(votes, 2) + 8 * decision(votes, 3)
}

#[tactic(auto, unfolding(crate::specs::Walk::minorities_of))]
fn minorities(votes: &[usize; 8]) -> [usize; 4]
    ensures { result ≡ minorities_of votes.now }
{
    [
        minority(votes, 0),
        minority(votes, 1),
        minority(votes, 2),
        minority(votes, 3),
    ]
}

// The remote alarm digit of frame f, or 0.
fn alarm_in(row: Row, line: &[u8], f: usize) -> u8
    requires { Regular row × Within row (length line.now) f }
    ensures { (result ≡ alarm_in row line.now f) × (result < 2) }
{
    if 0 < row.alarms {
        packed::digit_from(line, 0, f * row.digits + row.alarm)
    } else {
        0
    }
}

// The k-th digit for national use of frame f, or 0.
fn national_in(row: Row, line: &[u8], f: usize, k: usize) -> u8
    requires { Regular row × Within row (length line.now) f }
    ensures { (result ≡ national_in row line.now f k) × (result < 2) }
{
    if k < row.nationals {
        packed::digit_from(line, 0, f * row.digits + (row.national + k))
    } else {
        0
    }
}

// The service digits of frame f as bits 4 to 7.
#[tactic(auto, unfolding(crate::specs::Walk::services_in))]
fn services(row: Row, line: &[u8], f: usize) -> u8
    requires { Regular row × Within row (length line.now) f }
    ensures { (result ≡ services_in row line.now f) × (result ≤ 240) }
{
    let low = 16 * alarm_in(row, line, f) + 32 * national_in(row, line, f, 0);
    low + 64 * national_in(row, line, f, 1) + 128 * national_in(row, line, f, 2)
}

// What frame f says.
fn said_by(row: Row, line: &[u8], f: usize) -> Said
    requires { Regular row × Within row (length line.now) f }
    ensures { (result.note ≡ note_in row line.now f)
        × (result.wrong ≡ wrong_to row line.now f row.digits)
        × (result.wrong ≤ row.digits)
        × (result.dissent
        ≡ dissent_in row line.now f 0
        ∷ dissent_in row line.now f 1
        ∷ dissent_in row line.now f 2
        ∷ dissent_in row line.now f 3
        ∷ []) }
{
    let mut votes = [0usize; 8];
    let wrong = hear_frame(row, line, f, &mut votes);
    let decided = decisions(&votes);
    let dissent = minorities(&votes);
    Said {
        note: decided + services(row, line, f),
        wrong,
        dissent,
    }
}

// Four counts and four more, added one by one.
fn four_sums(a: [usize; 4], b: [usize; 4]) -> [usize; 4]
    requires { (i : ℕ) → get_or a i 0 + get_or b i 0 < 1000000 }
    ensures { result ≡ four_sums a b }
{
    [a[0] + b[0], a[1] + b[1], a[2] + b[2], a[3] + b[3]]
}

// All frames, one after the other: their notes are written, and the errors counted.
pub fn read(row: Row, line: &[u8], notes: &mut [u8]) -> Errors
    requires { Regular row × Fits row (length line.now) (length notes.old) }
    ensures { (result.alignment ≡ alignment_to row line.now (length notes.old))
        × (result.dissent ≡ dissents_to row line.now (length notes.old))
        × (notes.new ≡ notes_to row line.now (length notes.old)) }
{
    let mut alignment: usize = 0;
    let mut dissent = [0usize; 4];
    for (f, note) in notes.iter_mut().enumerate() {
        let said = said_by(row, line, f);
        *note = said.note;
        // The borrow checker covers no call that lays its result in an array already there, so the sums have a name of their own.
        let sums = four_sums(dissent, said.dissent);
        dissent = sums;
        alignment += said.wrong;
    }
    Errors { alignment, dissent }
}
