// How often a tributary's decision changes along a line.
ghost use Rattle.std.specs.Prelude.{◌≡◌, cond, ◌-◌, ◌<◌, ◌≤◌, eqb, length};
ghost use Rattle.judge.specs.Verdict.{four, decided, changes_of};

// Whether tributary j's decision (from 0) in frame f differs from that in the frame before: 1 if it does.
fn change_at(notes: &[u8], j: usize, f: usize) -> usize
    requires { (j < 4) × (0 < f) × (f < length notes.now) }
    ensures { (result ≡ cond (eqb (decided notes.now j f) (decided notes.now j (f - 1))) 0 1) × (result ≤ 1) }
{
    usize::from((notes[f] >> j) % 2 != (notes[f - 1] >> j) % 2)
}

// In how many frames it differs from the frame before.
fn changes_of(notes: &[u8], j: usize) -> usize
    requires { (j < 4) × (length notes.now ≤ 64) }
    ensures { result ≡ changes_of notes.now j }
{
    let mut changes = 0;
    for f in 1..notes.len() {
        changes += change_at(notes, j, f);
    }
    changes
}

// Of each tributary.
pub fn changes_four(notes: &[u8]) -> [usize; 4]
    requires { length notes.now ≤ 64 }
    ensures { result ≡ four (changes_of notes.now) }
{
    [
        changes_of(notes, 0),
        changes_of(notes, 1),
        changes_of(notes, 2),
        changes_of(notes, 3),
    ]
}
