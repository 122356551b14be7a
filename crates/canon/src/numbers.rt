// The rows of a table.
ghost use Rattle.std.specs.Prelude.{◌≡◌, true, false, cond, not, ◌&&◌, ◌||◌, ◌*◌, ◌+◌, ◌≤◌, eqb, leb, nat_abs, length};
ghost use Rattle.field.specs.Sign.{is_negative};
ghost use Rattle.record.specs.Rows.{row_width};
ghost use Rattle.canon.specs.Table.{cell_width};
ghost use Rattle.canon.specs.Valid.{entry, amount_valid, clock_valid, exponent_valid, most_flag, flag_valid, four_valid, row_valid, noted_valid, cell_valid, rows_valid};
ghost use Rattle.canon.specs.Measured.{exponents_end, row_length, noted_length, cell_length, rows_length};
ghost use Rattle.canon.specs.Spent.{spent};

use crate::{bounds, notes};
use field::sign::{LARGEST, LARGEST_CLOCK, magnitude_of};
use record::absence::{LARGEST_CLOCK_EXPONENT, LARGEST_EXPONENT};
use record::rows::{BARE_WIDTH, ROW_WIDTH, UNKNOWN};

// The bounds of x, y and z, and the largest clock that is not absent.
const MOST: i64 = LARGEST as i64;

const MOST_CLOCK: i64 = LARGEST_CLOCK as i64;

const LEAST: i64 = -(LARGEST as i64);

// Whether a number is one of x, y and z.
fn amount_valid(row: &[i64], i: usize) -> bool
    requires { i + 1 ≤ length row.now }
    ensures { result ≡ amount_valid (entry row.now i) }
{
    (LEAST..=MOST).contains(&row[i])
}

// Whether a number is a clock, or twelve nines for one that is absent.
fn clock_valid(row: &[i64], i: usize) -> bool
    requires { i + 1 ≤ length row.now }
    ensures { result ≡ clock_valid (entry row.now i) }
{
    (LEAST..=MOST_CLOCK).contains(&row[i]) | (row[i] == MOST)
}

// Whether a number is a count of at most so much.
pub(crate) fn at_most(row: &[i64], i: usize, most: u64) -> bool
    requires { i + 1 ≤ length row.now }
    ensures { result ≡ (not (is_negative (entry row.now i)) && leb (nat_abs (entry row.now i)) most) }
{
    let v = row[i];
    0 <= v && v as u64 <= most
}

// Whether a number is this count.
pub(crate) fn is_count(row: &[i64], i: usize, n: u64) -> bool
    requires { i + 1 ≤ length row.now }
    ensures { result ≡ (not (is_negative (entry row.now i)) && eqb (nat_abs (entry row.now i)) n) }
{
    let v = row[i];
    0 <= v && v as u64 == n
}

// Whether a number is at most so much, or the one that stands for unknown.
pub(crate) fn known_valid(row: &[i64], i: usize, most: u64, unknown: u64) -> bool
    requires { i + 1 ≤ length row.now }
    ensures { result ≡ (not (is_negative (entry row.now i)) && (leb (nat_abs (entry row.now i)) most || eqb (nat_abs (entry row.now i)) unknown)) }
{
    at_most(row, i, most) | is_count(row, i, unknown)
}

// The largest flag: 1, in a V row 0.
fn most_flag(velocity: bool) -> u64
    ensures { result ≡ most_flag velocity }
{
    if velocity { 0 } else { 1 }
}

// Whether the first four numbers of a row are x, y, z and clock.
fn amounts_valid(row: &[i64]) -> bool
    requires { length row.now ≡ row_width }
    ensures { result ≡ four_valid amount_valid clock_valid 0 row.now }
{
    (amount_valid(row, 0) & amount_valid(row, 1)) & (amount_valid(row, 2) & clock_valid(row, 3))
}

// Whether the next four are their exponents.
fn exponents_valid(row: &[i64]) -> bool
    requires { length row.now ≡ row_width }
    ensures { result ≡ four_valid (exponent_valid false) (exponent_valid true) 4 row.now }
{
    (known_valid(row, 4, LARGEST_EXPONENT, UNKNOWN)
        & known_valid(row, 5, LARGEST_EXPONENT, UNKNOWN))
        & (known_valid(row, 6, LARGEST_EXPONENT, UNKNOWN)
            & known_valid(row, 7, LARGEST_CLOCK_EXPONENT, UNKNOWN))
}

// Whether the four after them are flags.
fn flags_valid(row: &[i64], velocity: bool) -> bool
    requires { length row.now ≡ row_width }
    ensures { result ≡ four_valid (flag_valid velocity) (flag_valid velocity) 8 row.now }
{
    let most = most_flag(velocity);
    (at_most(row, 8, most) & at_most(row, 9, most))
        & (at_most(row, 10, most) & at_most(row, 11, most))
}

// Whether the first twelve numbers are a P row, or a V row where `velocity` says so.
#[tactic(auto, unfolding(crate::specs::Valid::row_valid))]
fn row_valid(row: &[i64], velocity: bool) -> bool
    requires { length row.now ≡ row_width }
    ensures { result ≡ row_valid velocity row.now }
{
    amounts_valid(row) & (exponents_valid(row) & flags_valid(row, velocity))
}

// A column, where the number at i is not this one; else the column before.
pub(crate) fn end_at(row: &[i64], i: usize, none: u64, column: usize, earlier: usize) -> usize
    requires { (i + 1 ≤ length row.now) × ((column ≤ 80) × (earlier ≤ 80)) }
    ensures value { result ≡ cond (eqb (nat_abs (entry row.now i)) none) earlier column }
    ensures upper_bound { result ≤ 80 }
{
    if magnitude_of(row[i]) == none {
        earlier
    } else {
        column
    }
}

// The last column of a row that has no flag.
#[tactic(auto, unfolding(crate::specs::Measured::exponents_end))]
fn exponents_end(row: &[i64]) -> usize
    requires { length row.now ≡ row_width }
    ensures value { result ≡ exponents_end row.now }
    ensures upper_bound { result ≤ 80 }
{
    let x = end_at(row, 4, UNKNOWN, 63, 60);
    let y = end_at(row, 5, UNKNOWN, 66, x);
    let z = end_at(row, 6, UNKNOWN, 69, y);
    end_at(row, 7, UNKNOWN, 73, z)
}

// The bytes of a row's line, with its LF.
#[tactic(auto, unfolding(crate::specs::Measured::row_length))]
fn row_length(row: &[i64]) -> usize
    requires { length row.now ≡ row_width }
    ensures { result ≡ row_length row.now }
{
    let none = exponents_end(row);
    let event = end_at(row, 8, 0, 75, none);
    let predicted = end_at(row, 9, 0, 76, event);
    let maneuver = end_at(row, 10, 0, 79, predicted);
    end_at(row, 11, 0, 80, maneuver) + 1
}

// What a row and its note leave of a room, where both are valid.
#[tactic(auto, unfolding(crate::specs::Valid::noted_valid, crate::specs::Measured::noted_length))]
fn row_spent(row: &[i64], velocity: bool, room: usize) -> Option<usize>
    requires { length row.now ≡ row_width }
    ensures { result ≡ spent (noted_valid velocity row.now) room (noted_length row.now) }
{
    let left = notes::note_spent(&row[BARE_WIDTH..], room)?;
    row_valid(row, velocity).then_some(left.saturating_sub(row_length(row)))
}

// What the rows of one satellite in one epoch leave.
#[tactic(auto, unfolding(crate::specs::Valid::cell_valid, crate::specs::Measured::cell_length))]
fn cell_spent(cell: &[i64], velocity: bool, room: usize) -> Option<usize>
    requires { length cell.now ≡ cell_width velocity }
    ensures { result ≡ spent (cell_valid velocity cell.now) room (cell_length velocity cell.now) }
{
    if !velocity {
        return row_spent(cell, false, room);
    }
    let left = row_spent(&cell[..ROW_WIDTH], false, room)?;
    row_spent(&cell[ROW_WIDTH..], true, left)
}

// What the rows of so many leave.
pub(crate) fn rows_spent(velocity: bool, cells: usize, rows: &[i64], room: usize) -> Option<usize>
    requires { length rows.now ≡ cells * cell_width velocity }
    ensures { result ≡ spent (rows_valid velocity cells rows.now) room (rows_length velocity cells rows.now) }
{
    let mut left = room;
    for cell in rows.chunks_exact(bounds::cell_width(velocity)) {
        left = cell_spent(cell, velocity, left)?;
    }
    Some(left)
}
