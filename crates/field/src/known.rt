// A decimal field that is known to be good, read without a test of its bytes: whoever has not judged it calls `read::decimal`.
ghost use Rattle.std.specs.List.{fold};
ghost use Rattle.std.specs.Prelude.{Bool, false, ◌||◌, ◌==◌, ◌≡◌, ◌&&◌, ℕ, ◌+◌, ◌-◌, ◌*◌, ◌^◌, ◌≤◌, length, take, ltb};
ghost use Rattle.field.specs.Digits.{value_from, point_of};
ghost use Rattle.field.specs.Known.{known_widest, known_magnitude, has_minus};
ghost use Rattle.field.specs.Clock.{all_nines, clock_held};

use crate::scale;
use crate::sign::shown_negative;

// Such a field is at most this wide, so that any bytes at all make a number of 64 bits.
pub const KNOWN_WIDEST: usize = 17;

// The column of the point in `width` columns, the first where the places leave no column for it.
fn point_of(places: usize, width: usize) -> usize
    ensures { result ≡ point_of places width }
{
    width.saturating_sub(places).saturating_sub(1)
}

// A digit's number, and 0 for all that stands below the digits.
pub fn figure(b: u8) -> u64
    ensures result { result ≡ b - 48 }
{
    u64::from(b).saturating_sub(48)
}

// The bytes read on from the value of those before them, each for its digit; any byte counts for 207 at most.
fn figures_from(high: u64, s: &[u8]) -> u64
    requires { (length s.now ≤ known_widest) × (high + 23 ≤ 23 * 10 ^ (known_widest - length s.now)) }
    ensures value { result ≡ value_from high s.now }
    ensures bound { (k : ℕ) → high + 23 ≤ 23 * 10 ^ k → result + 23 ≤ 23 * 10 ^ (k + length s.now) }
{
    let mut value = high;
    for b in s {
        value = value * 10 + figure(*b);
    }
    value
}

// The magnitude of a decimal field that is known to be good, in units of its last place: with six places ` -0.500000` has 500,000. Above 17
// columns 0.
#[tactic(auto, unfolding(crate::specs::Known::known_magnitude))]
pub fn magnitude(s: &[u8], places: usize) -> u64
    ensures result { result ≡ known_magnitude s.now places }
{
    if s.is_empty() || s.len() > KNOWN_WIDEST {
        return 0;
    }
    let point = point_of(places, s.len());
    let high = figures_from(0, &s[..point]);
    figures_from(high, &s[point + 1..])
}

// Whether a minus stands among the bytes.
fn has_minus(s: &[u8]) -> bool
    ensures { result ≡ fold (λ (found : Bool) (b : ℕ). found || b == 45) false s.now }
{
    s.iter().fold(false, |found, b| found | (*b == b'-'))
}

// Whether such a field, whose magnitude is at hand, is below zero: ` -0.500000` is, `-0.000000` is not.
pub fn is_negative(s: &[u8], places: usize, magnitude: u64) -> bool
    ensures result { result ≡ (has_minus (take (point_of places (length s.now)) s.now) && ltb 0 magnitude) }
{
    let point = point_of(places, s.len());
    let minus = has_minus(&s[..point]);
    shown_negative(minus, magnitude)
}

// The whole part of a clock that is absent.
pub const SIX_NINES: u64 = 999_999;

// The most places with which six nines are a number of 64 bits.
const MOST_PLACES: usize = 13;

// Six nines and nines in every place.
#[tactic(auto, using(crate::proofs::Powers::ten_to_small, crate::proofs::Powers::ten_pos, crate::proofs::Powers::ten_13))]
pub(crate) fn all_nines(places: usize) -> u64
    requires { places ≤ 13 }
    ensures { result ≡ all_nines places }
{
    (SIX_NINES + 1) * scale::ten_to(places) - 1
}

// What is held of a clock field whose sign and magnitude are at hand: six nines before the point and no minus are absent, and are all nines. With six
// places 999,999,000,000 is held as 999,999,999,999; 999,998,999,999 and -999,999,000,000 are held as they are.
#[tactic(auto, using(crate::proofs::Clocks::held_minus, crate::proofs::Clocks::held_wide, crate::proofs::Clocks::held_inside, crate::proofs::Clocks::held_outside, crate::proofs::Powers::ten_to_small))]
pub fn clock_held(negative: bool, magnitude: u64, places: usize) -> u64
    ensures result { result ≡ clock_held places negative magnitude }
{
    if negative || places > MOST_PLACES {
        return magnitude;
    }
    let nines = all_nines(places);
    if (nines - scale::ten_to(places) < magnitude) & (magnitude <= nines) {
        return nines;
    }
    magnitude
}
