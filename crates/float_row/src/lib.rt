// The row of the adjustment: three coordinates and the clock as floats, or absent for either.
#![tactic(auto)]

ghost use Rattle.std.specs.Prelude.{◌≡◌};
ghost use Rattle.std.specs.Float.{nan, binary64};
ghost use Rattle.std.specs.Float.Ieee.{of_int};
ghost use Rattle.file.specs.Table.{stored_signed};
ghost use Rattle.float_row.specs.Floats.{float_unless, float_row, absent_row};

use record::{Row, Signed};

// Three coordinates in mm and the clock in ps, each exactly the whole number of the file. What is absent is marked and is no number (NaN), so
// that whoever uses it by mistake spoils the result.
#[repr(C)]
#[derive(Clone, Copy)]
pub struct FloatRow {
    pub x: f64,
    pub y: f64,
    pub z: f64,
    pub clock: f64,
    pub place_absent: bool,
    pub clock_absent: bool,
}

// No number at all.
fn no_number() -> f64
    ensures { result ≡ nan }
{
    f64::NAN
}

// A whole number as a float.
fn float_of(s: Signed) -> f64
    ensures { result ≡ of_int binary64 (stored_signed s) }
{
    std::num::nearest_i64_to_f64(stored_row::stored_number(s.negative, s.magnitude))
}

// The same, or no number where it is absent.
#[tactic(auto, unfolding(crate::specs::Floats::float_unless))]
fn float_unless(absent: bool, s: Signed) -> f64
    ensures { result ≡ float_unless absent s }
{
    if absent { no_number() } else { float_of(s) }
}

// The row of a P line as floats: three zeros are no place, whatever the clock.
#[tactic(auto, unfolding(crate::specs::Floats::float_row))]
pub fn float_row(row: Row) -> FloatRow
    ensures result { result ≡ float_row row }
{
    let Row { x, y, z, clock, .. } = row;
    let place_absent = record::absence::place_absent(x.magnitude, y.magnitude, z.magnitude);
    let clock_absent = record::absence::clock_absent(clock.negative, clock.magnitude);
    FloatRow {
        x: float_unless(place_absent, x),
        y: float_unless(place_absent, y),
        z: float_unless(place_absent, z),
        clock: float_unless(clock_absent, clock),
        place_absent,
        clock_absent,
    }
}

// What stands beside a refusal: both absent.
#[tactic(auto, unfolding(crate::specs::Floats::absent_row))]
pub fn absent_row() -> FloatRow
    ensures result { result ≡ absent_row }
{
    let none = no_number();
    FloatRow {
        x: none,
        y: none,
        z: none,
        clock: none,
        place_absent: true,
        clock_absent: true,
    }
}
