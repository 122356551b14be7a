// A walk over the rows of a file whose identifiers are known.
ghost use Rattle.std.specs.Prelude.{◌≡◌, ◌+◌, ◌%◌, ◌^◌, length, take, ◌==◌, slice_index};
ghost use Rattle.lines.specs.Lines.{lines_of};
ghost use Rattle.header.specs.Versions.{rules_in};
ghost use Rattle.machine.specs.Step.{line_known};
ghost use Rattle.machine.specs.Told.{told_read};
ghost use Rattle.row_walk.specs.Rows.{first_walk, spot_past, row_ahead, epoch_of, satellite_of, row_given, row_step};
ghost use Rattle.row_walk.specs.Told.{told_step};

use crate::types::{RowStep, RowWalk};
use header::Rules;
use line_walk::Spot;
use machine::LineRead;

// Before the first line of a file.
pub fn first() -> RowWalk
    ensures result { result ≡ first_walk }
{
    RowWalk {
        spot: line_walk::first_spot(),
        passed: 0,
    }
}

// Whether a P line begins at a spot.
fn is_row_at(file: &[u8], at: usize) -> bool
    ensures { result ≡ (slice_index file.now at == 80) }
{
    file.get(at) == Some(&b'P')
}

// The line reader by these rules: what the line at a spot does, and where the next begins.
fn read_by<'a>(rules: Rules, file: &'a [u8], identifiers: &'a [u64], spot: Spot) -> LineRead
    ensures { told_read result ≡ told_read (line_known rules file.now spot.at spot.state identifiers.now) }
{
    let state = spot.state;
    machine::line_known(rules, file, spot.at, state, identifiers)
}

// The plain line reader where the identifiers of the header are known: what the line at a spot does, and where the next begins.
pub fn read_known<'a>(file: &'a [u8], identifiers: &'a [u64], spot: Spot) -> LineRead
    ensures result { told_read result ≡ told_read (line_known (rules_in file.now) file.now spot.at spot.state identifiers.now) }
{
    read_by(Rules::told_by(file), file, identifiers, spot)
}

// The spot after the line at a spot; the same spot where no line is left, where the line is refused and where it ends the file.
fn spot_past<'a>(rules: Rules, file: &'a [u8], identifiers: &'a [u64], spot: Spot) -> Spot
    ensures { result ≡ spot_past rules file.now identifiers.now spot }
{
    line_walk::gone_to(read_by(rules, file, identifiers, spot), spot)
}

// The spot of the next P line; or of the line before it that is refused or ends the file.
fn at_row<'a>(rules: Rules, file: &'a [u8], identifiers: &'a [u64], from: Spot) -> Spot
    ensures { result ≡ row_ahead rules file.now identifiers.now from }
{
    let mut spot = from;
    while !is_row_at(file, spot.at) {
        let next = spot_past(rules, file, identifiers, spot);
        if next.at == spot.at {
            return spot;
        }
        spot = next;
    }
    spot
}

// How many complete lines some bytes have.
fn count_lines(bytes: &[u8]) -> usize
    ensures { result ≡ length (lines_of bytes.now) }
{
    file::complete_lines(bytes).count()
}

// The number of the line that begins at a spot, counted from 1.
fn line_number(file: &[u8], at: usize) -> u64
    ensures { result ≡ length (lines_of (take at file.now)) + 1 }
{
    count_lines(&file[..at.min(file.len())]) as u64 + 1
}

// The epoch and the satellite of a row, by how many rows stand before it.
#[tactic(auto, unfolding(crate::specs::Rows::epoch_of))]
fn epoch_of(passed: u64, satellites: u64) -> u64
    ensures { result ≡ epoch_of passed satellites }
{
    passed.checked_div(satellites).unwrap_or(0)
}

#[tactic(auto, unfolding(crate::specs::Rows::satellite_of))]
fn satellite_of(passed: u64, satellites: u64) -> u64
    ensures { result ≡ satellite_of passed satellites }
{
    passed.checked_rem(satellites).unwrap_or(0)
}

// The row of the P line at a spot.
fn row_given(file: &[u8], at: usize, satellites: u64, passed: u64, next: RowWalk) -> RowStep
    ensures { result ≡ row_given file.now at satellites passed next }
{
    let line = file::line_at(file, at);
    let row = float_row::float_row(record::rows::row_of(line, false));
    let epoch = epoch_of(passed, satellites);
    let satellite = satellite_of(passed, satellites);
    if row.place_absent {
        return RowStep::Absent {
            epoch,
            satellite,
            row,
            next,
        };
    }
    RowStep::At {
        epoch,
        satellite,
        row,
        next,
    }
}

// The next P row of a file in order, in mode V too, where `identifiers` are the identifiers of its header; each line on the way is judged. A file
// that `begin` accepted gives all its rows and then the end.
pub fn next_row<'a>(file: &'a [u8], identifiers: &'a [u64], from: RowWalk) -> RowStep
    ensures result { told_step result ≡ told_step (row_step (rules_in file.now) file.now identifiers.now from) }
{
    let start = from.spot;
    let passed = from.passed;
    let rules = Rules::told_by(file);
    let spot = at_row(rules, file, identifiers, start);
    let at = spot.at;
    let state = spot.state;
    match read_by(rules, file, identifiers, spot) {
        LineRead::NoLine => RowStep::Refused {
            number: 1,
            line: line_number(file, at),
            column: 0,
        },
        LineRead::Fault { number, column } => RowStep::Refused {
            number,
            line: line_number(file, at),
            column,
        },
        LineRead::Finished { at: _ } => RowStep::End,
        LineRead::Next {
            at: end,
            state: after,
        } => row_given(
            file,
            at,
            state.satellites,
            passed,
            RowWalk {
                spot: Spot {
                    at: end,
                    state: after,
                },
                passed: passed.wrapping_add(1),
            },
        ),
    }
}
