// What is absent, unknown or too large: the one place that says so.
ghost use Rattle.std.specs.Prelude.{◌≡◌};
ghost use Rattle.record.specs.Absence.{place_absent, clock_absent, is_unknown, is_too_large};

use crate::rows::UNKNOWN;

// The largest exponents of a row, of x, y and z and of the clock: the deviation is too large for them.
pub const LARGEST_EXPONENT: u64 = 99;

pub const LARGEST_CLOCK_EXPONENT: u64 = 999;

// Whether a place or velocity of these magnitudes is absent: all three are zero. z alone zero is a place.
pub fn place_absent(x: u64, y: u64, z: u64) -> bool
    ensures result { result ≡ place_absent x y z }
{
    (x == 0) & ((y == 0) & (z == 0))
}

// Whether a clock or rate is absent: twelve nines and no minus.
pub fn clock_absent(negative: bool, magnitude: u64) -> bool
    ensures result { result ≡ clock_absent negative magnitude }
{
    (!negative) & (magnitude == field::sign::LARGEST)
}

// Whether an exponent is unknown, which is apart from 0.
pub fn is_unknown(exponent: u64) -> bool
    ensures result { result ≡ is_unknown exponent }
{
    exponent == UNKNOWN
}

// Whether a deviation is too large for its exponent.
pub fn is_too_large(clock: bool, exponent: u64) -> bool
    ensures result { result ≡ is_too_large clock exponent }
{
    if clock {
        exponent == LARGEST_CLOCK_EXPONENT
    } else {
        exponent == LARGEST_EXPONENT
    }
}
