// A table given by numbers: the arguments of a header, a field that is another after the header was accepted, the lengths of the lists, the lists.
use crate::fields::{Fields, Numbers};
use crate::shown::{Lists, Wanted};
use crate::{shown, words};
use header::Header;

// What is another in an accepted header: a field by its place among the numbers, of which 34 and more are none, and its value.
#[derive(Clone, Copy)]
struct Change {
    field: u64,
    value: u64,
}

// The lengths of the lists.
#[derive(Clone, Copy)]
struct Lengths {
    identifiers: u64,
    exponents: u64,
    comments: u64,
    rows: u64,
}

// The place of the start among the numbers.
const START: u64 = 1;

// An accepted header with one field changed.
fn changed(h: Header, n: &mut Numbers, change: Change) -> Header {
    match n.get_mut(change.field as usize) {
        Some(number) => *number = change.value,
        None => return h,
    }
    let start8 = if change.field == START {
        change.value
    } else {
        h.start8
    };
    Fields::from(&*n).with(start8)
}

// The lists of the table, in the order of the text.
fn lists(
    rt: &impl Print,
    h: Header,
    text: &[u8],
    identifiers: &mut [u64],
    exponents: &mut [u64],
    comments: &mut [u8],
    rows: &mut [i64],
    wanted: Wanted,
) {
    let rest = words::numbers(text, identifiers);
    let rest = words::numbers(rest, exponents);
    let rest = words::signed_numbers(rest, rows);
    words::bytes(rest, comments);
    shown::table(
        rt,
        h,
        Lists {
            identifiers,
            exponents,
            comments,
            rows,
        },
        wanted,
    );
}

// Lists of the lengths that the text says.
fn body(rt: &impl Print, h: Header, text: &[u8], lengths: Lengths, wanted: Wanted) {
    let mut identifiers = [0u64; 1000];
    let mut exponents = [0u64; 1000];
    let mut comments = [b' '; 8000];
    let mut rows = [0i64; 23_000];
    let i = (lengths.identifiers as usize).min(1000);
    let x = (lengths.exponents as usize).min(1000);
    let c = (lengths.comments as usize).min(8000);
    let r = (lengths.rows as usize).min(23_000);
    lists(
        rt,
        h,
        text,
        &mut identifiers[..i],
        &mut exponents[..x],
        &mut comments[..c],
        &mut rows[..r],
        wanted,
    );
}

// One table: what the header is answered and, where it is accepted, what is written.
pub(crate) fn table(rt: &impl Print, text: &[u8], wanted: Wanted) {
    let mut n = [0; 34];
    let mut more = [0; 6];
    let rest = words::numbers(text, &mut n);
    let rest = words::numbers(rest, &mut more);
    let [field, value, identifiers, exponents, comments, rows] = more;
    let answer = Fields::from(&n).made();
    let _ = println!(rt; "new {}", answer.refusal);
    if answer.refusal == 0 {
        let h = changed(answer.header, &mut n, Change { field, value });
        body(
            rt,
            h,
            rest,
            Lengths {
                identifiers,
                exponents,
                comments,
                rows,
            },
            wanted,
        );
    }
}
