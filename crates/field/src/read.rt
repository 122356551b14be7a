// Reading a field: blanks, then the number, to the field's last column.
ghost use Rattle.std.specs.Prelude.{◌≡◌, ◌-◌, ◌^◌, ◌≤◌, ◌<◌, length, true, false, MatchOption};
ghost use Rattle.laws.specs.Texts.{every};
ghost use Rattle.field.specs.Digits.{widest, is_blank, blanks_of, trim};
ghost use Rattle.field.specs.Read.{digits_from, number_of, minus_first, with_sign, signed_of, integer_of, settled, told_whole, whole_answer, told_exponent, exponent_answer, told_amount, signed_answer, decimal_answer};
ghost use Rattle.field.specs.Clock.{has_point, Parted, bare_clock, clock_answer};

use crate::sign::shown_negative;
use crate::{Exponent, Signed, WIDEST, known};

// How many blanks stand before anything else.
#[tactic(auto, using(crate::proofs::Blanks::counted))]
fn blanks(s: &[u8]) -> usize
    ensures { result ≡ blanks_of s.now }
{
    s.iter().take_while(|b| **b == b' ').count()
}

// What stands past the blanks.
#[tactic(auto, using(crate::proofs::Blanks::blanks_within))]
fn past_blanks(s: &[u8]) -> &[u8]
    ensures value { result.now ≡ trim s.now }
    ensures within { length result.now ≤ length s.now }
{
    &s[blanks(s)..]
}

// Digits read on from the value of those before them; 18 in all at most.
fn digits_from(high: u64, s: &[u8]) -> Option<u64>
    requires { (length s.now ≤ widest) × (high < 10 ^ (widest - length s.now)) }
    ensures { result ≡ digits_from high s.now }
{
    let mut value = high;
    for b in s {
        if !b.is_ascii_digit() {
            return None;
        }
        value = value * 10 + u64::from(b - b'0');
    }
    Some(value)
}

// At least one digit.
#[tactic(auto, using(crate::proofs::Powers::ten_pos), unfolding(crate::specs::Read::number_of))]
fn number(s: &[u8]) -> Option<u64>
    requires { length s.now ≤ widest }
    ensures { result ≡ number_of s.now }
{
    if s.is_empty() {
        return None;
    }
    digits_from(0, s)
}

// An integer field: blanks, then at least one digit, filling the field. ` 042` is 42; `4 2`, `+42`, `42 ` and blanks are malformed.
#[tactic(auto, unfolding(crate::specs::Read::whole_of))]
pub fn whole(s: &[u8]) -> Option<u64>
    ensures result { told_whole result ≡ whole_answer s.now }
{
    if s.len() > WIDEST {
        return None;
    }
    number(past_blanks(s))
}

// An exponent field: an integer field, or blank, which is unknown and not 0. ` 7` is 7; `7 ` is malformed.
#[tactic(auto, using(crate::proofs::Blanks::trimmed_blank, crate::proofs::Blanks::trimmed_inked), unfolding(crate::specs::Read::exponent_of, crate::specs::Read::whole_of))]
pub fn exponent(s: &[u8]) -> Exponent
    ensures result { told_exponent result ≡ exponent_answer s.now }
{
    if s.len() > WIDEST {
        return Exponent::Malformed;
    }
    let digits = past_blanks(s);
    if digits.is_empty() {
        return Exponent::Unknown;
    }
    match number(digits) {
        Some(value) => Exponent::Value(value),
        None => Exponent::Malformed,
    }
}

// Whether a minus stands first, where one is allowed.
#[tactic(auto, unfolding(crate::specs::Read::minus_first))]
fn minus_first(s: &[u8], signed: bool) -> bool
    ensures value { result ≡ minus_first signed s.now }
    ensures some { result ≡ true → 1 ≤ length s.now }
{
    signed && s.first() == Some(&b'-')
}

// The number that was read, with its sign.
fn with_sign(negative: bool, number: Option<u64>) -> Option<Signed>
    ensures { result ≡ with_sign negative number }
{
    let magnitude = number?;
    Some(Signed {
        negative,
        magnitude,
    })
}

// A minus where one is allowed, then at least one digit.
#[tactic(auto, unfolding(crate::specs::Read::signed_of))]
fn signed_number(s: &[u8], signed: bool) -> Option<Signed>
    requires { length s.now ≤ widest }
    ensures { result ≡ signed_of signed s.now }
{
    if minus_first(s, signed) {
        with_sign(true, number(&s[1..]))
    } else {
        with_sign(false, number(s))
    }
}

// Blanks, a minus where one is allowed, at least one digit.
#[tactic(auto, unfolding(crate::specs::Read::integer_of))]
fn integer(s: &[u8], signed: bool) -> Option<Signed>
    requires { length s.now ≤ widest }
    ensures { result ≡ integer_of signed s.now }
{
    signed_number(past_blanks(s), signed)
}

// The sign and magnitude of a number; minus zero is zero.
fn settle(negative: bool, magnitude: u64) -> Option<Signed>
    ensures { result ≡ settled negative magnitude }
{
    Some(Signed {
        negative: shown_negative(negative, magnitude),
        magnitude,
    })
}

// A signed integer field: an integer field that may have a minus before its first digit. ` -42` is -42, `-0` is 0; `- 42` is malformed.
#[tactic(auto, unfolding(crate::specs::Read::signed_whole_of))]
pub fn signed_whole(s: &[u8]) -> Option<Signed>
    ensures result { told_amount result ≡ signed_answer s.now }
{
    if s.len() > WIDEST {
        return None;
    }
    let read = integer(s, true)?;
    settle(read.negative, read.magnitude)
}

// The columns before the point and those after it, if the point stands where the places leave it, in at most 18 columns.
#[tactic(auto, unfolding(crate::specs::Clock::has_point))]
fn parted(s: &[u8], places: usize) -> Option<(&[u8], &[u8])>
    ensures { MatchOption result (has_point s.now places ≡ false) (λ parts. Parted s.now places parts.0.now parts.1.now) }
{
    if s.len() > WIDEST || places >= s.len() {
        return None;
    }
    let point = s.len() - places - 1;
    if s[point] != b'.' {
        return None;
    }
    Some((&s[..point], &s[point + 1..]))
}

// A decimal field: blanks, a minus where one is allowed (`signed`), at least one digit, the point, and exactly so many digits. Its value
// counts the last place: with six places ` -0.500000` is -500,000; ` .500000` and `-0.50000` are malformed.
#[tactic(auto, using(crate::proofs::Reading::decimal_unparted, crate::proofs::Reading::decimal_parted))]
pub fn decimal(s: &[u8], places: usize, signed: bool) -> Option<Signed>
    ensures result { told_amount result ≡ decimal_answer s.now places signed }
{
    let (before, after) = parted(s, places)?;
    let high = integer(before, signed)?;
    let magnitude = digits_from(high.magnitude, after)?;
    settle(high.negative, magnitude)
}

// Whether every column is blank.
fn all_blank(s: &[u8]) -> bool
    ensures { result ≡ every is_blank s.now }
{
    s.iter().all(|b| *b == b' ')
}

// Six nines, the point and blanks, which are an absent clock; anything else is malformed.
#[tactic(auto, using(crate::proofs::Clocks::few_places, crate::proofs::Clocks::bare_absent), unfolding(crate::specs::Clock::bare_nines, crate::specs::Clock::nines_before))]
fn bare_clock(s: &[u8], places: usize) -> Option<Signed>
    ensures { result ≡ bare_clock s.now places }
{
    let (before, after) = parted(s, places)?;
    if whole(before)? != known::SIX_NINES {
        return None;
    }
    if !all_blank(after) {
        return None;
    }
    Some(Signed {
        negative: false,
        magnitude: known::all_nines(places),
    })
}

// A clock field: a decimal field that may have a minus, or absent, which is held as all nines. It is absent where six nines without a minus stand before
// the point and digits or blanks in all places after it: with six places ` 999999.      `, ` 999999.000000` and `0999999.123456` are 999,999,999,999,
// `-999999.000000` is -999,999,000,000; `-999999.      ` and ` 999999.00000 ` are malformed.
pub fn clock(s: &[u8], places: usize) -> Option<Signed>
    ensures result { told_amount result ≡ clock_answer s.now places }
{
    match decimal(s, places, true) {
        Some(read) => Some(Signed {
            negative: read.negative,
            magnitude: known::clock_held(read.negative, read.magnitude, places),
        }),
        None => bare_clock(s, places),
    }
}
