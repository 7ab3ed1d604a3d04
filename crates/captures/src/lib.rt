// Captures kept in a file: the writer and the reader of request 1. specs/Captures.antt says what each answers and what the writer leaves.
// The reader answers places in the file it was lent, and copies nothing.
#![tactic(auto)]

ghost use Rattle.std.specs.Prelude.{◌≡◌, true, cond, ◌&&◌, ◌+◌, ◌^◌, ◌<◌, ◌≤◌, ltb, length, get_or};
ghost use Rattle.refusal.specs.Refusal.{refusal_in};
ghost use Rattle.levels.specs.Table.{Shared};
ghost use Rattle.levels.specs.Sizes.{bad_line};
ghost use Rattle.captures.specs.Captures.{field_of, file_of, put_at, filed, write_refusal, written_on, left_on, written_in, WriteMet};
ghost use Rattle.captures.specs.Captures.{length_at, end_at, part_at, field_at, unread, after_line, fields_of, ReadMet};

use levels::sizes;
use refusal::Refusal;
use table::Row;

// The tags of the fields, in the order of a file.
const LEVEL: u8 = 1;

const LINE: u8 = 2;

const LABEL: u8 = 3;

// A label has at most so many bytes.
const LABEL_MOST: usize = 32;

// Where there is no line or no label.
const NOWHERE: Part = Part { start: 0, bytes: 0 };

// Where something stands in a file: its first byte, and how many it has.
#[derive(Clone, Copy)]
pub struct Part {
    pub start: usize,
    pub bytes: usize,
}

// The reader's answer: the refusal, the level, where the line stands, whether there is a label and where, and the byte that refusal 9 names.
#[derive(Clone, Copy)]
pub struct Reading {
    pub refusal: u64,
    pub level: u64,
    pub line: Part,
    pub labelled: bool,
    pub label: Part,
    pub byte: usize,
}

// Puts a field behind the first p bytes of the file, and answers the byte after it.
fn put_field(file: &mut [u8], p: usize, tag: u8, body: &[u8]) -> usize
    requires { (length body.now < 65536) × (p + 3 + length body.now ≤ length file.old) }
    ensures { (result ≡ p + 3 + length body.now)
        × (file.new ≡ put_at p (field_of tag body.now) file.old) }
{
    let n = body.len();
    let start = p + 3;
    let end = start + n;
    file[p] = tag;
    file[p + 1..start].copy_from_slice(&(n as u16).to_be_bytes());
    file[start..end].copy_from_slice(body);
    end
}

// Whether there is a label of more than 32 bytes. Without a label the slice is not looked at.
fn long_label(label: &[u8], labelled: bool) -> bool
    ensures { result ≡ labelled && ltb 32 (length label.now) }
{
    labelled && LABEL_MOST < label.len()
}

// How many bytes the file of a line and a label of so many bytes has.
fn file_bytes(line: usize, label: usize, labelled: bool) -> usize
    requires { (line < 65536) × (label < 2 ^ 63) }
    ensures { result ≡ 7 + line + cond labelled (3 + label) 0 }
{
    if labelled {
        10 + line + label
    } else {
        7 + line
    }
}

// A level's row is known: the first refusal of 2, 9 and 4 that applies.
fn write_refusal(
    row: Row,
    level: u64,
    line: &[u8],
    label: &[u8],
    labelled: bool,
    room: usize,
) -> Result<(), Refusal>
    requires { Shared row }
    ensures { refusal_in result ≡ write_refusal row level line.now label.now labelled room }
{
    if sizes::bad_line(row, line.len()) {
        return Err(Refusal::Line);
    }
    if long_label(label, labelled) {
        return Err(Refusal::Field);
    }
    if room < file_bytes(line.len(), label.len(), labelled) {
        return Err(Refusal::Buffer);
    }
    Ok(())
}

// The fields of an accepted capture, one behind the other. Answers the byte after the last.
fn put_fields(level: u8, line: &[u8], label: &[u8], labelled: bool, file: &mut [u8]) -> usize
    requires { (length line.now < 65536)
        × (labelled ≡ true → length label.now ≤ 32)
        × (length (file_of level line.now label.now labelled) ≤ length file.old) }
    ensures { (result ≡ length (file_of level line.now label.now labelled))
        × (file.new ≡ filed (file_of level line.now label.now labelled) file.old) }
{
    let first = put_field(file, 0, LEVEL, &[level]);
    let second = put_field(file, first, LINE, line);
    if labelled {
        put_field(file, second, LABEL, label)
    } else {
        second
    }
}

// A level's row is known: line, label and room are judged, and the file is written.
fn write_on(
    row: Row,
    level: u64,
    line: &[u8],
    label: &[u8],
    labelled: bool,
    file: &mut [u8],
) -> Result<usize, Refusal>
    requires { Shared row × (level < 256) }
    ensures { (written_in result ≡ written_on row level line.now label.now labelled (length file.old))
        × (file.new ≡ left_on row level line.now label.now labelled file.old) }
{
    write_refusal(row, level, line, label, labelled, file.len())?;
    let bytes = put_fields(level as u8, line, label, labelled, file);
    Ok(bytes)
}

// Writes a capture into the file, and answers how many bytes it has. Any level number, any lengths; where labelled is false there is no label, and the
// slice is not looked at.
pub fn write(
    level: u64,
    line: &[u8],
    label: &[u8],
    labelled: bool,
    file: &mut [u8],
) -> Result<usize, Refusal>
    ensures { WriteMet level line.now label.now labelled file.old (written_in result) file.new }
{
    let found = table::level_of(level);
    match found {
        Some(row) => write_on(row, level, line, label, labelled, file),
        None => Err(Refusal::Level),
    }
}

// The byte at index i, and 0 past the end.
pub fn byte_at(file: &[u8], i: usize) -> u8
    ensures { result ≡ get_or file.now i 0 }
{
    file.get(i).copied().unwrap_or(0)
}

// The length that a field which begins at byte p gives, high byte first.
pub fn length_at(file: &[u8], p: usize) -> usize
    requires { p < 2 ^ 63 }
    ensures { (result ≡ length_at file.now p) × (result < 65536) }
{
    u16::from_be_bytes([byte_at(file, p + 1), byte_at(file, p + 2)]) as usize
}

// The byte after that field.
fn end_at(file: &[u8], p: usize) -> usize
    requires { p < 2 ^ 63 }
    ensures { (result ≡ end_at file.now p) × (result ≤ p + 65538) }
{
    p + 3 + length_at(file, p)
}

// Where the bytes of that field stand.
fn part_at(file: &[u8], p: usize) -> Part
    requires { p < 2 ^ 63 }
    ensures { result ≡ part_at file.now p }
{
    Part {
        start: p + 3,
        bytes: length_at(file, p),
    }
}

// Whether a field with this tag and a length from least to most begins at byte p and ends within the file.
fn field_at(file: &[u8], p: usize, tag: u8, least: usize, most: usize) -> bool
    requires { p < 2 ^ 63 }
    ensures { result ≡ field_at file.now p tag least most }
{
    let bytes = length_at(file, p);
    byte_at(file, p) == tag && least <= bytes && bytes <= most && end_at(file, p) <= file.len()
}

// Nothing is read, and this byte is named.
fn unread_at(refusal: u64, byte: usize) -> Reading
    ensures { result ≡ unread refusal byte }
{
    Reading {
        refusal,
        level: 0,
        line: NOWHERE,
        labelled: false,
        label: NOWHERE,
        byte,
    }
}

// The level and line fields stand in their places, and the line ends at byte p: the file ends there, or with a label.
fn after_line(file: &[u8], p: usize) -> Reading
    requires { p ≤ length file.now }
    ensures { result ≡ after_line file.now p }
{
    let level = byte_at(file, 3) as u64;
    let line = part_at(file, 4);
    if p == file.len() {
        return Reading {
            refusal: 0,
            level,
            line,
            labelled: false,
            label: NOWHERE,
            byte: 0,
        };
    }
    if !field_at(file, p, LABEL, 0, LABEL_MOST) {
        return unread_at(9, p);
    }
    let end = end_at(file, p);
    if end != file.len() {
        return unread_at(9, end);
    }
    Reading {
        refusal: 0,
        level,
        line,
        labelled: true,
        label: part_at(file, p),
        byte: 0,
    }
}

// The run of tags and lengths: what the fields give, or 9 and the byte of the field at fault.
fn fields_of(file: &[u8]) -> Reading
    ensures { result ≡ fields_of file.now }
{
    if !field_at(file, 0, LEVEL, 1, 1) {
        return unread_at(9, 0);
    }
    if !field_at(file, 4, LINE, 0, 65535) {
        return unread_at(9, 4);
    }
    after_line(file, end_at(file, 4))
}

// A level's row is known: the line that was found is judged.
fn judged_on(row: Row, found: Reading) -> Reading
    requires { Shared row }
    ensures { result ≡ cond (bad_line row found.line.bytes) (unread 2 0) found }
{
    if sizes::bad_line(row, found.line.bytes) {
        return unread_at(2, 0);
    }
    found
}

// Reads a capture. Any bytes: where they are no capture, nothing is read.
pub fn read(file: &[u8]) -> Reading
    ensures { ReadMet file.now result }
{
    let found = fields_of(file);
    if found.refusal != 0 {
        return found;
    }
    let level = table::level_of(found.level);
    match level {
        Some(row) => judged_on(row, found),
        None => unread_at(1, 0),
    }
}
