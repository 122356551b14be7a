// A sign and a magnitude as one signed number of the table, and back.
ghost use Rattle.std.specs.Prelude.{◌≡◌, nat_abs};
ghost use Rattle.field.specs.Show.{shown_negative};
ghost use Rattle.field.specs.Sign.{told_number, number_answer, is_negative};

// The largest magnitude that a number of the table has.
pub const LARGEST: u64 = 999_999_999_999;

// The largest clock or rate that is not absent.
pub const LARGEST_CLOCK: u64 = 999_998_999_999;

// The number with its sign; none (7, out of bounds) where its magnitude is above the largest, as 1,000,000,000,000 is. Minus zero is zero.
#[tactic(auto, using(crate::proofs::Signs::number_above, crate::proofs::Signs::number_minus, crate::proofs::Signs::number_plain))]
pub fn number(negative: bool, magnitude: u64) -> Option<i64>
    ensures result { told_number result ≡ number_answer negative magnitude }
{
    if magnitude > LARGEST {
        return None;
    }
    if negative {
        Some(-(magnitude as i64))
    } else {
        Some(magnitude as i64)
    }
}

// Whether a minus is shown: where the number is negative and not zero.
pub(crate) fn shown_negative(negative: bool, magnitude: u64) -> bool
    ensures { result ≡ shown_negative negative magnitude }
{
    negative & (0 < magnitude)
}

// Whether a signed number is below zero: -1 is, 0 is not.
pub fn is_negative(v: i64) -> bool
    ensures result { result ≡ is_negative v }
{
    v < 0
}

// The magnitude, that of the least number too.
pub fn magnitude_of(v: i64) -> u64
    ensures result { result ≡ nat_abs v }
{
    v.unsigned_abs()
}
