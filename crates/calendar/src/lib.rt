// The calendar: dates 1980-01-06 to 2099-12-31, plain calendar, days of 86,400 s, time in 10^-8 s.
#![tactic(auto)]

ghost use Rattle.std.specs.Prelude.{◌≡◌, ◌≤◌, ◌<◌, Some};
ghost use Rattle.calendar.specs.Gregorian.{leap, year_length, month_length, days_before, mjd_of, is_day, day_answer, told_date, date_answer, told_named, civil_answer};
ghost use Rattle.calendar.specs.Facts.{Valid, InMonth};
ghost use Rattle.calendar.specs.Clock.{is_time, told_instant, instant_answer, clock_of, told_week, week_answer};
ghost use Rattle.calendar.specs.Fraction.{agrees, told_fraction, fraction_answer};

// What the functions hand back.
mod types;

use laws::within;
pub use types::{Civil, Clock, Dated, Week};

// The bounds: 1980-01-06 is MJD 44244, the first day of GPS week 0, and 2099-12-31 is MJD 88068.
const FIRST_YEAR: u64 = 1980;

const LAST_YEAR: u64 = 2099;

const FIRST_OF_1980: u64 = 44_239;

const FIRST_MJD: u64 = 44_244;

const LAST_MJD: u64 = 88_068;

const SECONDS_OF_DAY: u64 = 86_400;

// A day, an hour and a minute in 10^-8 s.
pub const DAY: u64 = 8_640_000_000_000;

const HOUR: u64 = 360_000_000_000;

const MINUTE: u64 = 6_000_000_000;

// Between 1980 and 2099 every fourth year is a leap year, 2000 too.
fn is_leap(year: u64) -> bool
    requires { (1980 ≤ year) × (year ≤ 2099) }
    ensures result { result ≡ leap year }
{
    year % 4 == 0
}

// The days of the months before a month, or of the year for 13: as if February had 30, less one or two from March on.
fn days_before(leap_year: bool, month: u64) -> u64
    requires { (1 ≤ month) × (month ≤ 13) }
    ensures result { result ≡ days_before leap_year month }
{
    let even = (367 * month - 362) / 12;
    if month < 3 {
        return even;
    }
    if leap_year { even - 1 } else { even - 2 }
}

// The days of a month: from its beginning to the next one's.
fn month_length(leap_year: bool, month: u64) -> u64
    requires { (1 ≤ month) × (month ≤ 12) }
    ensures result { result ≡ month_length leap_year month }
{
    days_before(leap_year, month + 1) - days_before(leap_year, month)
}

// Whether the calendar has this day, in the years 1980 to 2099.
fn is_day(year: u64, month: u64, day: u64) -> bool
    ensures result { result ≡ is_day year month day }
{
    if !within(FIRST_YEAR, LAST_YEAR, year) {
        return false;
    }
    if !within(1, 12, month) {
        return false;
    }
    within(1, month_length(is_leap(year), month), day)
}

// The MJD of a day of the calendar: a year is 365 days and a quarter, 1980 having its leap day.
fn mjd_of(year: u64, month: u64, day: u64) -> u64
    requires { Valid year month day × (year ≤ 2099) }
    ensures result { result ≡ mjd_of year month day }
{
    let years = year - FIRST_YEAR;
    FIRST_OF_1980 + (1461 * years + 3) / 4 + days_before(is_leap(year), month) + (day - 1)
}

// A day of the bounds with its week and its seconds of week.
fn day_of(mjd: u64) -> Dated
    requires { 44244 ≤ mjd }
    ensures result { told_date (Some result) ≡ day_answer mjd }
{
    let since = mjd - FIRST_MJD;
    Dated {
        mjd,
        week: since / 7,
        seconds: SECONDS_OF_DAY * (since % 7),
    }
}

// What a year, a month and a day name: 2013-04-03 is MJD 56385, week 1734, 259,200 s. Any three numbers may be asked; 2001-02-29 and
// 1980-01-05 are out of bounds (7).
pub fn date(year: u64, month: u64, day: u64) -> Option<Dated>
    ensures result { told_date result ≡ date_answer year month day }
{
    if !is_day(year, month, day) {
        return None;
    }
    let mjd = mjd_of(year, month, day);
    if mjd < FIRST_MJD {
        return None;
    }
    Some(day_of(mjd))
}

// The month of a day of the year, counted from 0.
fn month_at(leap_year: bool, year_day: u64) -> u64
    requires { year_day < year_length leap_year }
    ensures result { InMonth leap_year year_day result }
{
    if year_day < 31 {
        return 1;
    }
    if leap_year {
        (12 * year_day + 385) / 367
    } else {
        (12 * year_day + 397) / 367
    }
}

// The date of an MJD: 56385 is 2013-04-03. Below 44244 and above 88068 it is out of bounds (7).
pub fn civil(mjd: u64) -> Option<Civil>
    ensures result { told_named result ≡ civil_answer mjd }
{
    if !within(FIRST_MJD, LAST_MJD, mjd) {
        return None;
    }
    let since = mjd - FIRST_OF_1980;
    let years = 4 * since / 1461;
    let year_day = since - (1461 * years + 3) / 4;
    let leap_year = years % 4 == 0;
    let month = month_at(leap_year, year_day);
    Some(Civil {
        year: FIRST_YEAR + years,
        month,
        day: year_day - days_before(leap_year, month) + 1,
    })
}

// Whether the numbers are a time of day; a second of 60 is none.
fn is_time(hour: u64, minute: u64, second8: u64) -> bool
    ensures result { result ≡ is_time hour minute second8 }
{
    if 24 <= hour {
        return false;
    }
    if 60 <= minute {
        return false;
    }
    second8 < MINUTE
}

// The instant of a date and a time of day, the second in 10^-8 s. Hour 24, minute 60, second 60 and no date are out of bounds (7).
pub fn instant(year: u64, month: u64, day: u64, hour: u64, minute: u64, second8: u64) -> Option<u64>
    ensures result { told_instant result ≡ instant_answer year month day hour minute second8 }
{
    if !is_time(hour, minute, second8) {
        return None;
    }
    let date = date(year, month, day)?;
    Some(date.mjd * DAY + hour * HOUR + minute * MINUTE + second8)
}

// The day (MJD) and the time of day of an instant in 10^-8 s since MJD 0.
pub fn clock_of(at: u64) -> Clock
    ensures result { result ≡ clock_of at }
{
    Clock {
        day: at / DAY,
        hour: at % DAY / HOUR,
        minute: at % HOUR / MINUTE,
        second8: at % MINUTE,
    }
}

// The GPS week and the seconds of week, in 10^-8 s, of an instant; out of bounds (7) where its day is before 1980-01-06 or after
// 2099-12-31.
pub fn week_of(at: u64) -> Option<Week>
    ensures result { told_week result ≡ week_answer at }
{
    let day = at / DAY;
    if !within(FIRST_MJD, LAST_MJD, day) {
        return None;
    }
    let since = day - FIRST_MJD;
    Some(Week {
        week: since / 7,
        second8: since % 7 * DAY + at % DAY,
    })
}

// Whether 108 F and 125 S differ by less than 108, F in 10^-13 day and S in 10^-8 s: 115740741 agrees with one second, 115740742 does
// not. With F = 125 p + g and S = 108 q + r the two are 13,500 p + 108 g and 13,500 q + 125 r, which can be so near only if p is q; so
// nothing overflows.
pub fn fraction_agrees(f: u64, s: u64) -> bool
    ensures result { result ≡ agrees f s }
{
    if f / 125 != s / 108 {
        return false;
    }
    let a = 108 * (f % 125);
    let b = 125 * (s % 108);
    if b + 108 <= a {
        return false;
    }
    b < a + 108
}

// The fraction of day, in 10^-13 day, of a time of day in 10^-8 s, to the nearest, halves upward: one second is 115740741. A day or more
// is out of bounds (7).
pub fn fraction_of(s: u64) -> Option<u64>
    ensures result { told_fraction result ≡ fraction_answer s }
{
    if s < DAY {
        return Some((125 * s + 54) / 108);
    }
    None
}
