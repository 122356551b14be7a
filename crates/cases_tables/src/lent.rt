// A reading into lent lists, which have a mark in every place before it, and a sum over everything lent after it.
use crate::cases::Case;
use crate::{cases, table};
use reader::Reading;

// The lists of a table, after a reading.
#[derive(Clone, Copy)]
pub(crate) struct Lists<'a> {
    pub identifiers: &'a [u64],
    pub exponents: &'a [u64],
    pub comments: &'a [u8],
    pub rows: &'a [i64],
}

// A sum times 31 and one number more, all of it modulo 2^64.
fn step(sum: u64, n: u64) -> u64 {
    sum.wrapping_mul(31).wrapping_add(n)
}

// Over identifiers or exponents.
fn sum_of(numbers: &[u64]) -> u64 {
    numbers.iter().fold(0, |sum, n| step(sum, *n))
}

// Over the bytes of comments.
fn sum_of_bytes(bytes: &[u8]) -> u64 {
    bytes.iter().fold(0, |sum, b| step(sum, u64::from(*b)))
}

// A signed number more: its magnitude, then 1 for a minus or 0 for none.
fn signed_step(sum: u64, v: i64) -> u64 {
    step(step(sum, v.unsigned_abs()), u64::from(v < 0))
}

// Over the numbers of rows.
fn sum_of_rows(rows: &[i64]) -> u64 {
    rows.iter().fold(0, |sum, v| signed_step(sum, *v))
}

// What a reading left: the sums of the four lists, and the table of a file that was read whole.
fn shown(rt: &impl Print, reading: Reading, front: bool, lists: Lists<'_>) {
    let identifiers = sum_of(lists.identifiers);
    let exponents = sum_of(lists.exponents);
    let comments = sum_of_bytes(lists.comments);
    let rows = sum_of_rows(lists.rows);
    let _ = println!(rt; "sums {identifiers} {exponents} {comments} {rows}");
    if !front && reading.refusal == 0 {
        table::show(rt, reading.header, lists);
    }
}

// A reading into these lists: of a whole file, or of the file at the front.
fn into(
    rt: &impl Print,
    file: &[u8],
    front: bool,
    identifiers: &mut [u64],
    exponents: &mut [u64],
    comments: &mut [u8],
    rows: &mut [i64],
) {
    let reading = if front {
        reader::read_front(file, identifiers, exponents, comments, rows)
    } else {
        reader::read(file, identifiers, exponents, comments, rows)
    };
    cases::told(rt, if front { "read_front" } else { "read" }, reading);
    shown(
        rt,
        reading,
        front,
        Lists {
            identifiers,
            exponents,
            comments,
            rows,
        },
    );
}

// A reading into the first places of the lists, as many as the case says.
fn into_parts(
    rt: &impl Print,
    case: Case,
    file: &[u8],
    front: bool,
    identifiers: &mut [u64],
    exponents: &mut [u64],
    comments: &mut [u8],
    rows: &mut [i64],
) {
    let i = (case.identifiers as usize).min(identifiers.len());
    let x = (case.exponents as usize).min(exponents.len());
    let c = (case.comments as usize).min(comments.len());
    let r = (case.rows as usize).min(rows.len());
    into(
        rt,
        file,
        front,
        &mut identifiers[..i],
        &mut exponents[..x],
        &mut comments[..c],
        &mut rows[..r],
    );
}

// A reading into lists that hold marks alone.
pub(crate) fn read(rt: &impl Print, case: Case, file: &[u8], front: bool) {
    let mut identifiers = [7777u64; 1000];
    let mut exponents = [7777u64; 1000];
    let mut comments = [b'#'; 8000];
    let mut rows = [-7i64; 23_000];
    into_parts(
        rt,
        case,
        file,
        front,
        &mut identifiers,
        &mut exponents,
        &mut comments,
        &mut rows,
    );
}
