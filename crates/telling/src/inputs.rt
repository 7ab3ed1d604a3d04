// How the inputs of the cases are made, and the sum by which a line or a buffer is told from another.

// Byte i is i modulo 256.
pub fn count_up(s: &mut [u8]) {
    for (i, byte) in s.iter_mut().enumerate() {
        *byte = (i % 256) as u8;
    }
}

// Past the end nothing is put.
pub fn put_byte(s: &mut [u8], i: usize, byte: u8) {
    if let Some(there) = s.get_mut(i) {
        *there = byte;
    }
}

// `before` before frame `from`, and `note` from that frame on.
pub fn notes_from(notes: &mut [u8], before: u8, note: u8, from: usize) {
    let mid = from.min(notes.len());
    let (earlier, later) = notes.split_at_mut(mid);
    earlier.fill(before);
    later.fill(note);
}

// Byte i counts i + 1 times: the sum, from the last byte to the first, of the bytes from there on.
pub fn sum(s: &[u8]) -> u64 {
    let mut after: u64 = 0;
    let mut total: u64 = 0;
    for &byte in s.iter().rev() {
        after = after.wrapping_add(u64::from(byte));
        total = total.wrapping_add(after);
    }
    total
}
