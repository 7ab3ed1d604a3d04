// Digits of a piece put among those of another slice, from any place on: by 32, by eight, and one by one where they begin or end inside a byte.
ghost use Rattle.std.specs.Prelude.{◌≡◌, ◌+◌, ◌*◌, ◌-◌, ◌<◌, ◌≤◌, length};
ghost use Rattle.digits.specs.Digits.{between};
ghost use Rattle.strides.specs.Copies.{puts};

// One by one.
fn copy_digits(f: &mut [u8], to: usize, piece: &[u8], first: usize, end: usize)
    requires { (first ≤ end) × (end ≤ 8 * length piece.now) × (length piece.now ≤ 65536) × (to + (end - first) ≤ 8 * length f.old) × (length f.old ≤ 65536) }
    ensures { f.new ≡ puts f.old to (between piece.now first end) }
{
    for p in first..end {
        digits::put_digit(f, to + (p - first), digits::digit_at(piece, p));
    }
}

// n times eight digits, from the start of a byte on.
fn copy_bytes(f: &mut [u8], at: usize, piece: &[u8], first: usize, n: usize)
    requires { (first + 8 * n ≤ 8 * length piece.now) × (length piece.now ≤ 65536) × (at + n ≤ length f.old) × (length f.old ≤ 65536) }
    ensures { f.new ≡ puts f.old (8 * at) (between piece.now first (first + 8 * n)) }
{
    for k in 0..n {
        f[at + k] = words::read_digits(piece, first + 8 * k, 8) as u8;
    }
}

// n times 32 digits, from the start of a byte on: four bytes at a time.
fn copy_words(f: &mut [u8], at: usize, piece: &[u8], first: usize, n: usize)
    requires { (first + 32 * n ≤ 8 * length piece.now) × (length piece.now ≤ 65536) × (at + 4 * n ≤ length f.old) × (length f.old ≤ 65536) }
    ensures { f.new ≡ puts f.old (8 * at) (between piece.now first (first + 32 * n)) }
{
    for k in 0..n {
        words::store4(f, at + 4 * k, words::read_digits(piece, first + 32 * k, 32));
    }
}

// So many digits from the start of a byte on: by 32, then by eight, and what is left one by one.
fn copy_aligned(f: &mut [u8], at: usize, piece: &[u8], first: usize, end: usize)
    requires { (first ≤ end) × (end ≤ 8 * length piece.now) × (length piece.now ≤ 65536) × (8 * at + (end - first) ≤ 8 * length f.old) × (length f.old ≤ 65536) }
    ensures { f.new ≡ puts f.old (8 * at) (between piece.now first end) }
{
    let n = (end - first) / 32;
    let from = first + 32 * n;
    let m = (end - from) / 8;
    let rest = from + 8 * m;
    copy_words(f, at, piece, first, n);
    copy_bytes(f, at + 4 * n, piece, from, m);
    copy_digits(f, 8 * (at + 4 * n + m), piece, rest, end);
}

// Digits of a piece put in a slice from place `to` on: one by one up to the end of a byte, and on from there.
pub fn copy(f: &mut [u8], to: usize, piece: &[u8], first: usize, end: usize)
    requires { (first ≤ end) × (end ≤ 8 * length piece.now) × (length piece.now ≤ 65536) × (to + (end - first) ≤ 8 * length f.old) × (length f.old ≤ 65536) }
    ensures { f.new ≡ puts f.old to (between piece.now first end) }
{
    let from = first + ((8 - to % 8) % 8).min(end - first);
    copy_digits(f, to, piece, first, from);
    if from < end {
        copy_aligned(f, (to + 7) / 8, piece, from, end);
    }
}
