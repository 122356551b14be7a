// The table of a file that was read: its header, and the lists by their accessors alone.
ghost use Rattle.std.specs.Prelude.{◌≤◌, length};

use crate::lent::Lists;
use crate::print;
use header::{Header, Texts};
use record::plain::COMMENT_WIDTH;
use record::rows::ROW_WIDTH;
use stored_row::{ClockRead, ExponentRead, Flag, NoteCorrelation, NoteDeviation, NoteMark, Place};

// The four texts of line 1.
fn texts(rt: &impl Print, t: Texts) {
    print::bytes(rt, b"texts |");
    for text in [
        &t.data_used[..],
        &t.coordinates[..],
        &t.orbit[..],
        &t.agency[..],
    ] {
        print::bytes(rt, text);
        print::bytes(rt, b"|");
    }
    print::bytes(rt, b"\n");
}

// The header, but for the counts of its lists.
fn front(rt: &impl Print, header: Header) {
    let _ = println!(rt; "mode {}", if header.velocity { 'V' } else { 'P' });
    let _ = println!(rt;
        "start8 {}\nepochs {}\ninterval8 {}",
        header.start8, header.epochs, header.interval8
    );
    texts(rt, header.texts);
    let _ = print!(rt; "type ");
    print::bytes(rt, &[header.file_type]);
    let _ = print!(rt; "\ntime ");
    print::bytes(rt, &header.time_system);
    let _ = println!(rt; "\nbases {} {}", header.bases.place, header.bases.clock);
}

// The satellites, each with its accuracy; 0 where none was lent.
fn satellites(rt: &impl Print, identifiers: &[u64], exponents: &[u64]) {
    for (k, name) in identifiers.iter().enumerate() {
        print::identifier(rt, *name);
        let _ = println!(rt; " {}", exponents.get(k).copied().unwrap_or(0));
    }
}

// A comment without its trailing blanks.
fn comment(rt: &impl Print, text: &[u8]) {
    let n = layout::trimmed_length(text);
    let (kept, _) = text.split_at(n);
    print::bytes(rt, b"|");
    print::bytes(rt, kept);
    print::bytes(rt, b"|\n");
}

// The first n comments, as far as there are any.
fn comments(rt: &impl Print, n: u64, bytes: &[u8]) {
    for text in bytes.chunks_exact(COMMENT_WIDTH).take(n as usize) {
        comment(rt, text);
    }
}

// The place or velocity of a row.
fn place(rt: &impl Print, rows: &[i64], k: usize) {
    let _ = match stored_row::place_of(rows, k) {
        Place::At { x, y, z } => print!(rt; " {x} {y} {z}"),
        Place::Absent => print!(rt; " absent"),
        Place::NotThere => print!(rt; " none"),
    };
}

// The clock or rate of a row.
fn clock(rt: &impl Print, rows: &[i64], k: usize) {
    let _ = match stored_row::clock_of(rows, k) {
        ClockRead::At(v) => print!(rt; " {v}"),
        ClockRead::Absent => print!(rt; " absent"),
        ClockRead::NotThere => print!(rt; " none"),
    };
}

// An exponent of a row.
fn exponent(rt: &impl Print, rows: &[i64], k: usize, which: usize) {
    let _ = match stored_row::exponent_of(rows, k, which) {
        ExponentRead::Value(n) => print!(rt; " {n}"),
        ExponentRead::Unknown => print!(rt; " unknown"),
        ExponentRead::TooLarge => print!(rt; " large"),
        ExponentRead::NotThere => print!(rt; " none"),
    };
}

// A flag of a row: its letter, or a point.
fn flag(rt: &impl Print, rows: &[i64], k: usize, which: usize, letter: char) {
    let _ = match stored_row::flag_of(rows, k, which) {
        Flag::Set => print!(rt; "{letter}"),
        Flag::NotSet => print!(rt; "."),
        Flag::NotThere => print!(rt; "none"),
    };
}

// A deviation of a row's note.
fn note_deviation(rt: &impl Print, rows: &[i64], k: usize, which: usize) {
    let _ = match stored_row::note_deviation_of(rows, k, which) {
        NoteDeviation::Value(n) => print!(rt; " {n}"),
        NoteDeviation::Unknown => print!(rt; " unknown"),
        NoteDeviation::TooLarge => print!(rt; " large"),
        NoteDeviation::NoRecord => print!(rt; " norecord"),
        NoteDeviation::NotThere => print!(rt; " none"),
    };
}

// A correlation of a row's note.
fn note_correlation(rt: &impl Print, rows: &[i64], k: usize, which: usize) {
    let _ = match stored_row::note_correlation_of(rows, k, which) {
        NoteCorrelation::Value(v) => print!(rt; " {v}"),
        NoteCorrelation::Unknown => print!(rt; " unknown"),
        NoteCorrelation::NoRecord => print!(rt; " norecord"),
        NoteCorrelation::NotThere => print!(rt; " none"),
    };
}

// The ten numbers of a row's note.
fn noted(rt: &impl Print, rows: &[i64], k: usize) {
    let _ = print!(rt; " note");
    for which in 0..4 {
        note_deviation(rt, rows, k, which);
    }
    for which in 0..6 {
        note_correlation(rt, rows, k, which);
    }
}

// The note of a row, where one stands.
fn note(rt: &impl Print, rows: &[i64], k: usize) {
    match stored_row::note_of(rows, k) {
        NoteMark::Stands => noted(rt, rows, k),
        NoteMark::NoRecord => {}
        NoteMark::NotThere => {
            let _ = print!(rt; " none");
        }
    }
}

// What the k-th row holds.
fn held(rt: &impl Print, rows: &[i64], k: usize) {
    place(rt, rows, k);
    clock(rt, rows, k);
    for which in 0..4 {
        exponent(rt, rows, k, which);
    }
    let _ = print!(rt; " ");
    flag(rt, rows, k, 0, 'E');
    flag(rt, rows, k, 1, 'P');
    flag(rt, rows, k, 2, 'M');
    flag(rt, rows, k, 3, 'P');
    note(rt, rows, k);
    let _ = println!(rt);
}

// The letter of the k-th row: in mode V each P has its V after it.
fn letter(velocity: bool, k: usize) -> char {
    if velocity && k % 2 == 1 { 'V' } else { 'P' }
}

// How many P rows stand before the k-th row.
fn places_before(velocity: bool, k: usize) -> usize {
    if velocity { k / 2 } else { k }
}

// The k-th row, with its letter, its epoch and its satellite.
fn row(rt: &impl Print, velocity: bool, identifiers: &[u64], rows: &[i64], k: usize)
    requires { 1 ≤ length identifiers.now }
{
    let n = identifiers.len();
    let p = places_before(velocity, k);
    let _ = print!(rt; "{} {} ", letter(velocity, k), p / n);
    print::identifier(rt, identifiers[p % n]);
    held(rt, rows, k);
}

// The rows of so many epochs, and how many they are.
fn all_rows(
    rt: &impl Print,
    velocity: bool,
    epochs: u64,
    identifiers: &[u64],
    rows: &[i64],
) -> usize
    requires { 1 ≤ length identifiers.now }
{
    let n = rows.len() / ROW_WIDTH;
    for k in 0..n {
        if (places_before(velocity, k) / identifiers.len()) as u64 >= epochs {
            return k;
        }
        row(rt, velocity, identifiers, rows, k);
    }
    n
}

// How many of the first n places are absent.
fn absent_places(rows: &[i64], n: usize) -> usize
    ensures { result ≤ n }
{
    (0..n)
        .filter(|k| matches!(stored_row::place_of(rows, *k), Place::Absent))
        .count()
}

// How many rows there are, and how many of their places are known and absent.
fn counts(rt: &impl Print, rows: &[i64], n: usize) {
    let absent = absent_places(rows, n);
    let _ = println!(rt; "rows {n} known {} absent {absent}", n - absent);
}

// The rows of these satellites.
fn body(rt: &impl Print, header: Header, identifiers: &[u64], rows: &[i64]) {
    if !identifiers.is_empty() {
        let n = all_rows(rt, header.velocity, header.epochs, identifiers, rows);
        counts(rt, rows, n);
    }
}

// The whole table.
pub(crate) fn show(rt: &impl Print, header: Header, lists: Lists<'_>) {
    let n = (header.satellites as usize).min(lists.identifiers.len());
    let identifiers = &lists.identifiers[..n];
    front(rt, header);
    let _ = println!(rt; "satellites {}", header.satellites);
    satellites(rt, identifiers, lists.exponents);
    let _ = println!(rt; "comments {}", header.comments);
    comments(rt, header.comments, lists.comments);
    body(rt, header, identifiers, lists.rows);
}
