// A table written, and the answer printed.
use crate::print;
use header::{Header, Version};
use reader::Reading;

// What is wanted of a writing: the version, and the size of the room.
#[derive(Clone, Copy)]
pub(crate) struct Wanted {
    pub version: Version,
    pub size: u64,
}

// The lists of a table.
#[derive(Clone, Copy)]
pub(crate) struct Lists<'a> {
    pub identifiers: &'a [u64],
    pub exponents: &'a [u64],
    pub comments: &'a [u8],
    pub rows: &'a [i64],
}

// The mark that a room holds in each byte before a writing.
const MARK: u8 = 7;

// What a writing left in the room: its bytes, and whether the others are as they were.
fn left(rt: &impl Print, length: usize, room: &[u8]) {
    let (written, others) = room.split_at(length.min(room.len()));
    let kept = others.iter().all(|b| *b == MARK);
    print::bytes(rt, written);
    let _ = println!(rt; "{}", if kept { "kept" } else { "changed" });
}

// A table written in a version into a room of marks.
fn into(rt: &impl Print, version: Version, h: Header, lists: Lists<'_>, room: &mut [u8]) {
    let answer = writer::write(
        version,
        h,
        lists.identifiers,
        lists.exponents,
        lists.comments,
        lists.rows,
        room,
    );
    let _ = println!(rt; "write {} {}", answer.refusal, answer.length);
    left(rt, answer.length, room);
}

// A table written as it is wanted, into a room of 75,000 bytes at most.
pub(crate) fn table(rt: &impl Print, h: Header, lists: Lists<'_>, wanted: Wanted) {
    let mut room = [MARK; 75_000];
    let n = (wanted.size as usize).min(room.len());
    into(rt, wanted.version, h, lists, &mut room[..n]);
}

// What a reading answers: the refusal, its line, its column, and the letter of the version.
fn told(rt: &impl Print, reading: Reading) {
    let _ = print!(rt;
        "read {} {} {} |",
        reading.refusal, reading.line, reading.column
    );
    print::bytes(rt, &[reading.version, b'|', b'\n']);
}

// A file read into these lists, and what was read written.
fn read(
    rt: &impl Print,
    bytes: &[u8],
    identifiers: &mut [u64],
    exponents: &mut [u64],
    comments: &mut [u8],
    rows: &mut [i64],
    wanted: Wanted,
) {
    let reading = reader::read(bytes, identifiers, exponents, comments, rows);
    told(rt, reading);
    if reading.refusal == 0 {
        let lists = Lists {
            identifiers,
            exponents,
            comments,
            rows,
        };
        table(rt, reading.header, lists, wanted);
    }
}

// A file read into lists of marks.
pub(crate) fn file(rt: &impl Print, bytes: &[u8], wanted: Wanted) {
    let mut identifiers = [7777u64; 1000];
    let mut exponents = [7777u64; 1000];
    let mut comments = [b'#'; 8000];
    let mut rows = [-7i64; 23_000];
    read(
        rt,
        bytes,
        &mut identifiers,
        &mut exponents,
        &mut comments,
        &mut rows,
        wanted,
    );
}
