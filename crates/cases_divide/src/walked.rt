// One file walked: what `begin` answers and leaves, the rows in order, and the spots after some lines, with what is due at the last.
use crate::print::{Float, mark};
use crate::{lent, print};
use float_row::FloatRow;
use header::{Header, Rules};
use line_walk::Spot;
use record::kind::SATELLITES_KIND;
use row_walk::RowStep;
use std::fmt;

// A place, whose mark must not be set.
#[derive(Clone, Copy)]
struct KnownPlace(FloatRow);

impl fmt::Display for KnownPlace {
    fn fmt<W: fmt::Write>(&self, f: &mut fmt::Formatter<W>) -> fmt::Result {
        let row = self.0;
        write!(
            f,
            " at {} {} {}{}",
            Float(row.x),
            Float(row.y),
            Float(row.z),
            mark(row.place_absent)
        )
    }
}

// No place: its mark must be set, and no coordinate is a number.
#[derive(Clone, Copy)]
struct NoPlace(FloatRow);

impl fmt::Display for NoPlace {
    fn fmt<W: fmt::Write>(&self, f: &mut fmt::Formatter<W>) -> fmt::Result {
        let row = self.0;
        write!(
            f,
            " absent{}{}{}{}",
            mark(row.x == row.x),
            mark(row.y == row.y),
            mark(row.z == row.z),
            mark(!row.place_absent)
        )
    }
}

// A clock, or none, which is no number.
#[derive(Clone, Copy)]
struct Clock(FloatRow);

impl fmt::Display for Clock {
    fn fmt<W: fmt::Write>(&self, f: &mut fmt::Formatter<W>) -> fmt::Result {
        let row = self.0;
        if row.clock_absent {
            write!(f, " absent{}", mark(row.clock == row.clock))
        } else {
            write!(f, " {}", Float(row.clock))
        }
    }
}

// The rows of a file in order, and how the walk ends. A file has no more rows than bytes.
fn rows<'a>(rt: &impl Print, file: &'a [u8], header: &'a [u64]) {
    let mut from = row_walk::first();
    for _ in 0..=file.len() {
        match row_walk::next_row(file, header, from) {
            RowStep::At {
                epoch,
                satellite,
                row,
                next,
            } => {
                let _ = println!(rt; "row {epoch} {satellite}{}{}", KnownPlace(row), Clock(row));
                from = next;
            }
            RowStep::Absent {
                epoch,
                satellite,
                row,
                next,
            } => {
                let _ = println!(rt; "row {epoch} {satellite}{}{}", NoPlace(row), Clock(row));
                from = next;
            }
            RowStep::End => {
                let _ = println!(rt; "end");
                return;
            }
            RowStep::Refused {
                number,
                line,
                column,
            } => {
                let _ = println!(rt; "refused {number} line {line} column {column}");
                return;
            }
        }
    }
    let _ = println!(rt; "more rows than bytes");
}

// How many lines some bytes have.
fn line_count(bytes: &[u8]) -> usize {
    bytes.iter().filter(|b| **b == b'\n').count()
}

// A spot after so many lines: its byte, the kind of line due there, and the satellites and epochs still to come.
fn stands(rt: &impl Print, word: &str, k: usize, at: Spot) {
    let state = at.state;
    let _ = println!(rt;
        "{word} {k} {} {} {} {}",
        at.at, state.due, state.left, state.epochs
    );
}

// What is due at a spot where these identifiers are lent: the kind of line, the kind that may stand before it, instant, satellite, and whether the
// line there repeats an identifier.
fn due(rt: &impl Print, word: &str, file: &[u8], at: Spot, identifiers: &[u64]) {
    let found = machine::due_at(Rules::told_by(file), file, at.at, at.state, identifiers);
    let repeats = u64::from(found.repeats);
    let _ = println!(rt;
        "{word} {} {} {} {} {repeats}",
        found.kind, found.also, found.instant8, found.identifier
    );
}

// The spot after the first k lines.
fn after(file: &[u8], k: usize) -> Spot {
    let mut identifiers = [0; Header::MAX_SATELLITES as usize];
    line_walk::after_lines(file, line_walk::first_spot(), k, &mut identifiers)
}

// The spot after n lines, half of them first.
fn in_two(rt: &impl Print, file: &[u8], n: usize) {
    let mut identifiers = [0; Header::MAX_SATELLITES as usize];
    let half = line_walk::after_lines(file, line_walk::first_spot(), n / 2, &mut identifiers);
    stands(rt, "spot", n / 2, half);
    let all = line_walk::after_lines(file, half, n - n / 2, &mut identifiers);
    stands(rt, "then", n, all);
}

// The spot after n lines, and what is due there: with the identifiers that the lines brought, and with those given.
fn last(rt: &impl Print, file: &[u8], n: usize, given: &[u64]) {
    let mut identifiers = [0; Header::MAX_SATELLITES as usize];
    let at = line_walk::after_lines(file, line_walk::first_spot(), n, &mut identifiers);
    stands(rt, "spot", n, at);
    due(rt, "due", file, at, &identifiers);
    due(rt, "given", file, at, given);
}

// The spots after no line, one, three, half of them, all of them and more, and what is due at the last.
fn spots(rt: &impl Print, file: &[u8], given: &[u64]) {
    let n = line_count(file);
    for k in [0, 1, 3] {
        stands(rt, "spot", k, after(file, k));
    }
    in_two(rt, file, n);
    stands(rt, "spot", n, after(file, n));
    last(rt, file, n.saturating_add(5), given);
}

// How many identifiers the lines before a spot have brought: where `+ ` lines are still due, those of the satellites that have had their slot.
fn brought(at: Spot) -> u64 {
    let state = at.state;
    if state.due == SATELLITES_KIND {
        state.satellites.saturating_sub(state.left)
    } else {
        state.satellites
    }
}

// The spot after all lines with no more room for identifiers than this, what is due there, and the identifiers that they brought.
fn short(rt: &impl Print, file: &[u8], identifiers: &mut [u64]) {
    let n = line_count(file);
    let at = line_walk::after_lines(file, line_walk::first_spot(), n, identifiers);
    stands(rt, "short", n, at);
    due(rt, "due", file, at, identifiers);
    lent::identifiers(rt, identifiers, brought(at));
}

// A file walked over rows with the identifiers that `begin` fills, or with the given identifiers where it is refused; and over lines.
fn into<'a>(rt: &impl Print, file: &'a [u8], identifiers: &mut [u64], given: &'a [u64]) {
    let reading = row_walk::begin(file, identifiers);
    let header = reading.header;
    let _ = print!(rt;
        "begin {} {} {} {} {} {}",
        reading.refusal,
        reading.line,
        reading.column,
        reading.length,
        header.satellites,
        header.epochs
    );
    print::version(rt, reading.version);
    lent::identifiers(rt, identifiers, header.satellites);
    if reading.refusal == 0 {
        rows(rt, file, identifiers);
    } else {
        rows(rt, file, given);
    }
    spots(rt, file, given);
}

// A file walked with room for `size` identifiers, 1,000 at most.
pub(crate) fn shown<'a>(rt: &impl Print, file: &'a [u8], size: u64, given: &'a [u64]) {
    let mut identifiers = [lent::MARK; 1000];
    let n = (size as usize).min(1000);
    into(rt, file, &mut identifiers[..n], given);
    let mut identifiers = [lent::MARK; 1000];
    short(rt, file, &mut identifiers[..n]);
}
