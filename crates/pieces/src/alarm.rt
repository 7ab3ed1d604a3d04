// Alarm indication: the digits taken, cut into stretches of N, and the zeros of each. Nothing here looks at the mode.
ghost use Rattle.std.specs.Prelude.{◌≡◌, ◌+◌, ◌*◌, ◌≤◌, length};
ghost use Rattle.digits.specs.Digits.{between};
ghost use Rattle.levels.specs.Table.{Shared};
ghost use Rattle.pieces.specs.Alarm.{alarm_after, added, counted, uncounted, Counting};

use table::Row;

// The stretch that is being cut: its digits and its zeros so far, whether the stretch before had few zeros, and whether the
// alarm stands.
#[derive(Clone, Copy)]
pub struct Stretch {
    pub digits: usize,
    pub zeros: usize,
    pub few: bool,
    pub alarm: bool,
}

// Whether a stretch of this row is refused with 6.
pub fn is_uncounted(row: Row, st: Stretch) -> bool
    ensures { result ≡ uncounted row st }
{
    row.digits <= st.digits || st.digits < st.zeros
}

// The alarm at a stretch's end: whether this stretch has few zeros, whether the one before had, and the alarm before.
fn alarm_after(few: bool, before: bool, alarm: bool) -> bool
    ensures { result ≡ alarm_after few before alarm }
{
    match (few, before) {
        (true, true) => true,
        (true, false) => alarm, // the first with few
        (false, true) => alarm, // the first with more
        (false, false) => false,
    }
}

// The stretch with n digits more, z of them zeros, for which it has room.
fn add(row: Row, st: Stretch, n: usize, z: usize) -> Stretch
    requires { Shared row × Counting row st × (st.digits + n ≤ row.digits) × (z ≤ n) }
    ensures { result ≡ added row st n z }
{
    if st.digits + n == row.digits {
        let few = st.zeros + z <= row.limit;
        let alarm = alarm_after(few, st.few, st.alarm);
        Stretch {
            digits: 0,
            zeros: 0,
            few,
            alarm,
        }
    } else {
        Stretch {
            digits: st.digits + n,
            zeros: st.zeros + z,
            ..st
        }
    }
}

// Counts the digits from first on and before end, stretch by stretch.
pub fn count(row: Row, st: Stretch, piece: &[u8], first: usize, end: usize) -> Stretch
    requires { Shared row × Counting row st × (first ≤ end) × (end ≤ 8 * length piece.now) × (length piece.now ≤ 65536) }
    ensures { result ≡ counted row st (between piece.now first end) }
{
    let mut s = st;
    let mut p = first;
    // a step is what the stretch has room for, and no fixed number
    while p < end {
        let n = (row.digits - s.digits).min(end - p);
        s = add(row, s, n, digits::zeros::zeros_in(piece, p, p + n));
        p += n;
    }
    s
}
