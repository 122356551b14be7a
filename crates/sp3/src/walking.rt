// A file line by line, and row by row.
ghost use Rattle.std.specs.Prelude.{◌≡◌, length};
ghost use Rattle.header.specs.Versions.{rules_in};
ghost use Rattle.machine.specs.Due.{due_at};
ghost use Rattle.machine.specs.Step.{line_known, line_read, line_identifiers};
ghost use Rattle.reader.specs.Reading.{file_of, judged};
ghost use Rattle.line_walk.specs.Spots.{first_spot, spots_after, identifiers_past};
ghost use Rattle.row_walk.specs.Begin.{begun_as, identifiers_begun};
ghost use Rattle.row_walk.specs.Rows.{first_walk, row_step};
ghost use Rattle.sp3.specs.Doors.{line_parts, line_door, no_row, row_found, row_door};

use crate::types::{LineAnswer, RowStepAnswer};
use float_row::FloatRow;
use header::Rules;
use line_walk::Spot;
use machine::{Due, LineRead};
use reader::Reading;
use row_walk::{RowStep, RowWalk};

// Before the first line of a file.
pub fn sp3_first_spot() -> Spot
    ensures result { result ≡ first_spot }
{
    line_walk::first_spot()
}

// The parts of what a line does.
fn line_parts(refusal: usize, column: usize, finished: bool, next: Spot) -> LineAnswer
    ensures { result ≡ line_parts refusal column finished next }
{
    LineAnswer {
        refusal,
        column,
        finished,
        next,
    }
}

// What a line was found to do at a spot, for C.
fn line_answer(found: LineRead, spot: Spot) -> LineAnswer
    ensures { result ≡ line_door spot found }
{
    let before = spot.state;
    match found {
        LineRead::NoLine => line_parts(1, 0, false, spot),
        LineRead::Fault { number, column } => line_parts(number, column, false, spot),
        LineRead::Next { at, state } => line_parts(0, 0, false, Spot { at, state }),
        LineRead::Finished { at } => line_parts(0, 0, true, Spot { at, state: before }),
    }
}

// The plain line reader: what the line at a spot does. A `+ ` line leaves its identifiers in `identifiers`; 12 where they are more than fit.
pub fn sp3_read_line(bytes: &[u8], spot: Spot, identifiers: &mut [u64]) -> LineAnswer
    ensures result { result ≡ line_door spot (line_read (rules_in bytes.now) bytes.now spot.at spot.state identifiers.old) }
    ensures lent { identifiers.new ≡ line_identifiers (rules_in bytes.now) bytes.now spot.at spot.state identifiers.old }
{
    let at = spot.at;
    let state = spot.state;
    let found = machine::read_line(Rules::told_by(bytes), bytes, at, state, identifiers);
    line_answer(found, spot)
}

// The same where the identifiers of the header are known.
pub fn sp3_next_line<'a>(file: &'a [u8], identifiers: &'a [u64], spot: Spot) -> LineAnswer
    ensures result { result ≡ line_door spot (line_known (rules_in file.now) file.now spot.at spot.state identifiers.now) }
{
    let found = row_walk::read_known(file, identifiers, spot);
    line_answer(found, spot)
}

// What must stand at a spot, where the identifiers are those of the lines before it.
pub fn sp3_due<'a>(file: &'a [u8], identifiers: &'a [u64], spot: Spot) -> Due
    ensures result { result ≡ due_at (rules_in file.now) file.now spot.at spot.state identifiers.now }
{
    let state = spot.state;
    machine::due_at(Rules::told_by(file), file, spot.at, state, identifiers)
}

// A walk: the spot so many lines further. A `+ ` line leaves its identifiers in `identifiers`.
pub fn sp3_after_lines(file: &[u8], identifiers: &mut [u64], spot: Spot, lines: usize) -> Spot
    ensures result { result ≡ spots_after (rules_in file.now) file.now identifiers.old spot lines }
    ensures lent { identifiers.new ≡ identifiers_past (rules_in file.now) file.now identifiers.old spot lines }
{
    line_walk::after_lines(file, spot, lines, identifiers)
}

// Before a walk over rows: the file judged, the identifiers of its header left in `identifiers`.
pub fn sp3_begin(file: &[u8], identifiers: &mut [u64]) -> Reading
    ensures result { result ≡ begun_as (judged (rules_in file.now) file.now (file_of (rules_in file.now) file.now)) (length identifiers.old) }
    ensures lent { identifiers.new ≡ identifiers_begun (rules_in file.now) (judged (rules_in file.now) file.now (file_of (rules_in file.now) file.now)) file.now identifiers.old }
{
    row_walk::begin(file, identifiers)
}

// Before the first row.
pub fn sp3_first_row() -> RowWalk
    ensures result { result ≡ first_walk }
{
    row_walk::first()
}

// No row: both parts absent.
fn no_row(refusal: usize, line: u64, column: usize, end: bool, from: RowWalk) -> RowStepAnswer
    ensures { result ≡ no_row refusal line column end from }
{
    let none = 0.0 / 0.0;
    RowStepAnswer {
        refusal,
        line,
        column,
        end,
        epoch: 0,
        satellite: 0,
        row: FloatRow {
            x: none,
            y: none,
            z: none,
            clock: none,
            place_absent: true,
            clock_absent: true,
        },
        next: from,
    }
}

// A row.
fn row_found(epoch: u64, satellite: u64, row: FloatRow, next: RowWalk) -> RowStepAnswer
    ensures { result ≡ row_found epoch satellite row next }
{
    RowStepAnswer {
        refusal: 0,
        line: 0,
        column: 0,
        end: false,
        epoch,
        satellite,
        row,
        next,
    }
}

// The step of a walk, for C.
fn row_answer(found: RowStep, from: RowWalk) -> RowStepAnswer
    ensures { result ≡ row_door from found }
{
    match found {
        RowStep::At {
            epoch,
            satellite,
            row,
            next,
        } => row_found(epoch, satellite, row, next),
        RowStep::Absent {
            epoch,
            satellite,
            row,
            next,
        } => row_found(epoch, satellite, row, next),
        RowStep::End => no_row(0, 0, 0, true, from),
        RowStep::Refused {
            number,
            line,
            column,
        } => no_row(number, line, column, false, from),
    }
}

// The next row of a file in order.
pub fn sp3_next_row<'a>(file: &'a [u8], identifiers: &'a [u64], from: RowWalk) -> RowStepAnswer
    ensures result { result ≡ row_door from (row_step (rules_in file.now) file.now identifiers.now from) }
{
    row_answer(row_walk::next_row(file, identifiers, from), from)
}
