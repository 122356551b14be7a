// Writing a field: the number at the right, in its canonical form, with blanks before it.
ghost use Rattle.std.specs.Prelude.{◌≡◌, ◌++◌, true, ◌+◌, ◌-◌, ◌/◌, ◌^◌, ◌<◌, ◌≤◌, length, take, set};
ghost use Rattle.field.specs.Show.{last_digit, digits_in, fixed_digits, sign_width, point_text, show_integer, fits_integer, fits_whole, put_whole, fits_signed, put_signed, fits_exponent, put_exponent, fits_decimal, put_decimal};

use crate::scale::ten_to;
use crate::sign::shown_negative;
use crate::{Exponent, WIDEST};

// The byte of the last digit.
fn last_digit(v: u64) -> u8
    ensures { result ≡ last_digit v }
{
    b'0' + (v % 10) as u8
}

// The byte of the first of two digits.
fn first_digit(pair: u64) -> u8
    requires { pair < 100 }
    ensures { result ≡ 48 + pair / 10 }
{
    b'0' + (pair / 10) as u8
}

// The bytes of two digits, which are stored as one number: the tens below the units, each 48 more than its digit.
fn put_pair(out: &mut [u8], at: usize, pair: u64)
    requires { (pair < 100) × (at + 2 ≤ length out.old) }
    ensures { out.new ≡ set (set out.old at (48 + pair / 10)) (at + 1) (last_digit pair) }
{
    let both = 256 * pair + 12336 - 2559 * (pair / 10);
    out[at] = (both % 256) as u8;
    out[at + 1] = (both / 256) as u8;
}

// The lowest digits of v in every column, zeros too, two at a time.
fn put_fixed(out: &mut [u8], v: u64)
    ensures { out.new ≡ fixed_digits (length out.old) v }
{
    let mut rest = v;
    let mut i = out.len();
    while i > 1 {
        let pair = rest % 100;
        put_pair(out, i - 2, pair);
        rest /= 100;
        i -= 2;
    }
    if i > 0 {
        out[0] = last_digit(rest);
    }
}

// The point, and the lowest digits of v in the columns after it.
fn put_point(out: &mut [u8], v: u64)
    requires { 0 < length out.old }
    ensures { out.new ≡ point_text (length out.old - 1) v }
{
    out[0] = b'.';
    put_fixed(&mut out[1..], v);
}

// The digits of a number that has no more than the columns, at the right; says the column where they begin.
fn put_digits(out: &mut [u8], v: u64) -> usize
    requires { (0 < length out.old) × (v < 10 ^ length out.old) }
    ensures value { result ≡ length out.old - length (digits_in (length out.old) v) }
    ensures out_after { out.new ≡ take result out.old ++ digits_in (length out.old) v }
{
    let mut rest = v;
    let mut i = out.len();
    while rest >= 100 {
        let pair = rest % 100;
        i -= 2;
        put_pair(out, i, pair);
        rest /= 100;
    }
    i -= 1;
    out[i] = last_digit(rest);
    if rest < 10 {
        return i;
    }
    i -= 1;
    out[i] = first_digit(rest);
    i
}

// An integer that fits its columns, right-justified.
fn put_integer(out: &mut [u8], negative: bool, v: u64)
    requires { fits_integer (length out.old) negative v ≡ true }
    ensures { out.new ≡ show_integer (length out.old) negative v }
{
    laws::fill_blanks(out);
    let start = put_digits(out, v);
    if negative {
        out[start - 1] = b'-';
    }
}

// The columns that a minus takes.
fn sign_width(negative: bool) -> usize
    ensures { result ≡ sign_width negative }
{
    usize::from(negative)
}

// Whether an integer has the columns that it needs.
#[tactic(auto, using(crate::proofs::Powers::ten_to_is), unfolding(crate::specs::Show::fits_integer))]
fn fits_integer(width: usize, negative: bool, v: u64) -> bool
    ensures { result ≡ fits_integer width negative v }
{
    let sign = sign_width(negative);
    if width > WIDEST || width <= sign {
        return false;
    }
    v < ten_to(width - sign)
}

// Whether a signed integer has the columns that it needs: -42 three.
pub fn fits_signed_whole(width: usize, negative: bool, magnitude: u64) -> bool
    ensures result { result ≡ fits_signed width negative magnitude }
{
    fits_integer(width, shown_negative(negative, magnitude), magnitude)
}

// The same of an integer: 100 three.
pub fn fits_whole(width: usize, v: u64) -> bool
    ensures result { result ≡ fits_whole width v }
{
    fits_integer(width, false, v)
}

// The same of a decimal, which as a whole number without its point has one column less: -500,000 with six places nine.
#[tactic(auto, using(crate::proofs::Fitting::decimal_wide, crate::proofs::Fitting::decimal_placeless, crate::proofs::Fitting::decimal_crowded, crate::proofs::Fitting::decimal_bounded))]
pub fn fits_decimal(width: usize, places: usize, negative: bool, magnitude: u64) -> bool
    ensures result { result ≡ fits_decimal width places negative magnitude }
{
    if width > WIDEST || places >= width {
        return false;
    }
    let sign = sign_width(shown_negative(negative, magnitude));
    sign < width - places - 1 && magnitude < ten_to(width - 1 - sign)
}

// A signed integer field: -42 in four columns is ` -42`, minus zero `   0`. Where the number does not fit (-42 in two), false, and
// nothing is written.
pub fn put_signed_whole(out: &mut [u8], negative: bool, magnitude: u64) -> bool
    ensures result { result ≡ fits_signed (length out.old) negative magnitude }
    ensures lent { out.new ≡ put_signed negative magnitude out.old }
{
    if !fits_signed_whole(out.len(), negative, magnitude) {
        return false;
    }
    put_integer(out, shown_negative(negative, magnitude), magnitude);
    true
}

// An integer field in the columns that are lent: 42 in four is `  42`. Where the number does not fit (100 in two), false, and nothing
// is written.
pub fn put_whole(out: &mut [u8], v: u64) -> bool
    ensures result { result ≡ fits_whole (length out.old) v }
    ensures lent { out.new ≡ put_whole v out.old }
{
    put_signed_whole(out, false, v)
}

// An exponent field: 7 in two columns is ` 7`, unknown is blank. Where it does not fit (100 in two) or is malformed, false, and nothing
// is written.
#[tactic(auto, using(crate::proofs::Fitting::exponent_wide))]
pub fn put_exponent(out: &mut [u8], exponent: Exponent) -> bool
    ensures result { result ≡ fits_exponent (length out.old) exponent }
    ensures lent { out.new ≡ put_exponent exponent out.old }
{
    if out.len() > WIDEST {
        return false;
    }
    match exponent {
        Exponent::Value(value) => put_whole(out, value),
        Exponent::Unknown => {
            laws::fill_blanks(out);
            true
        }
        Exponent::Malformed => false,
    }
}

// A decimal field, of a number that counts the last place: -500,000 with six places in ten columns is ` -0.500000`. Where the number
// does not fit (that one in eight), false, and nothing is written.
pub fn put_decimal(out: &mut [u8], places: usize, negative: bool, magnitude: u64) -> bool
    ensures result { result ≡ fits_decimal (length out.old) places negative magnitude }
    ensures lent { out.new ≡ put_decimal places negative magnitude out.old }
{
    let width = out.len();
    if !fits_decimal(width, places, negative, magnitude) {
        return false;
    }
    let unit = ten_to(places);
    let (before, after) = out.split_at_mut(width - places - 1);
    put_point(after, magnitude % unit);
    put_integer(
        before,
        shown_negative(negative, magnitude),
        magnitude / unit,
    );
    true
}
