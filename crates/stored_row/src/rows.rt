// The row of a P or V line: the first twelve numbers of a stored row, asked for by name.
ghost use Rattle.std.specs.Prelude.{◌≡◌, cond, ◌&&◌, ◌+◌, ◌<◌, leb, Some, None};
ghost use Rattle.record.specs.Rows.{row_width};
ghost use Rattle.file.specs.Table.{stored_int};
ghost use Rattle.stored_row.specs.Stored.{is_there, number_at, place_in, clock_in, exponent_read_in, flag_in, told_place, told_clock, told_exponent_read, told_flag};

use crate::types::{ClockRead, ExponentRead, Flag, Place};
use record::rows::ROW_WIDTH;

// A number as it is stored: 0 beyond the bounds, which no field holds.
pub fn stored_number(negative: bool, magnitude: u64) -> i64
    ensures result { result ≡ stored_int negative magnitude }
{
    field::sign::number(negative, magnitude).unwrap_or(0)
}

// Whether the lent numbers have a k-th row.
pub(crate) fn is_there(rows: &[i64], k: usize) -> bool
    ensures { result ≡ is_there rows.now k }
{
    k < rows.len() / ROW_WIDTH
}

// What is asked for of the k-th row, of its numbers from a place on, by 0 to `last`; none where there is no such row or number.
pub(crate) fn asked(rows: &[i64], k: usize, from: usize, last: usize, which: usize) -> Option<i64>
    requires { from + last < row_width }
    ensures { result ≡ cond (is_there rows.now k && leb which last) (Some (number_at rows.now k (from + which))) None }
{
    if is_there(rows, k) && which <= last {
        Some(rows[k * ROW_WIDTH + (from + which)])
    } else {
        None
    }
}

// The place or velocity of the k-th row: absent exactly where all three are zero, whatever the clock.
#[tactic(auto, unfolding(crate::specs::Stored::place_in))]
pub fn place_of(rows: &[i64], k: usize) -> Place
    ensures result { told_place result ≡ told_place (place_in rows.now k) }
{
    if !is_there(rows, k) {
        return Place::NotThere;
    }
    let at = k * ROW_WIDTH;
    let x = rows[at];
    let y = rows[at + 1];
    let z = rows[at + 2];
    let absent = record::absence::place_absent(
        field::sign::magnitude_of(x),
        field::sign::magnitude_of(y),
        field::sign::magnitude_of(z),
    );
    if absent {
        return Place::Absent;
    }
    Place::At { x, y, z }
}

// The clock or rate of the k-th row: absent exactly at twelve nines, whatever the place.
#[tactic(auto, unfolding(crate::specs::Stored::clock_in))]
pub fn clock_of(rows: &[i64], k: usize) -> ClockRead
    ensures result { told_clock result ≡ told_clock (clock_in rows.now k) }
{
    if !is_there(rows, k) {
        return ClockRead::NotThere;
    }
    let clock = rows[k * ROW_WIDTH + 3];
    let negative = field::sign::is_negative(clock);
    if record::absence::clock_absent(negative, field::sign::magnitude_of(clock)) {
        return ClockRead::Absent;
    }
    ClockRead::At(clock)
}

// The exponent of x, y, z or clock (0 to 3) of the k-th row.
#[tactic(auto, unfolding(crate::specs::Stored::exponent_read_in))]
pub fn exponent_of(rows: &[i64], k: usize, which: usize) -> ExponentRead
    ensures result { told_exponent_read result ≡ told_exponent_read (exponent_read_in rows.now k which) }
{
    let Some(v) = asked(rows, k, 4, 3, which) else {
        return ExponentRead::NotThere;
    };
    let n = field::sign::magnitude_of(v);
    if record::absence::is_unknown(n) {
        return ExponentRead::Unknown;
    }
    if record::absence::is_too_large(which == 3, n) {
        return ExponentRead::TooLarge;
    }
    ExponentRead::Value(n)
}

// The number of a flag that is not set.
const NOT_SET: u64 = 0;

// The flag of column 75, 76, 79 or 80 (0 to 3) of the k-th row: clock event, clock predicted, maneuver, orbit predicted.
#[tactic(auto, unfolding(crate::specs::Stored::flag_in))]
pub fn flag_of(rows: &[i64], k: usize, which: usize) -> Flag
    ensures result { told_flag result ≡ told_flag (flag_in rows.now k which) }
{
    let Some(v) = asked(rows, k, 8, 3, which) else {
        return Flag::NotThere;
    };
    if field::sign::magnitude_of(v) == NOT_SET {
        return Flag::NotSet;
    }
    Flag::Set
}
