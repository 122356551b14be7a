// Every date of the years around the bounds, every day of the bounds and every second of a day, each made into a sum that every number changes.
use calendar::{Dated, Week};

const PRIME: u64 = 1_000_000_007;

// A second in 10^-8 s.
const SECOND: u64 = 100_000_000;

// A whole day in 10^-13 day: every fraction is less.
const WHOLE_DAY: u64 = 10_000_000_000_000;

// The next value of a sum that every number changes.
fn mixed(sum: u64, n: u64) -> u64 {
    (31 * (sum % PRIME) + n % PRIME) % PRIME
}

fn with_date(sum: u64, answer: Option<Dated>) -> u64 {
    match answer {
        Some(d) => mixed(mixed(mixed(mixed(sum, 0), d.mjd), d.week), d.seconds),
        None => mixed(sum, 7),
    }
}

fn with_week(sum: u64, answer: Option<Week>) -> u64 {
    match answer {
        Some(w) => mixed(mixed(mixed(sum, 0), w.week), w.second8),
        None => mixed(sum, 7),
    }
}

fn with_instant(sum: u64, answer: Option<u64>) -> u64 {
    match answer {
        Some(at) => with_week(mixed(mixed(sum, 0), at), calendar::week_of(at)),
        None => mixed(sum, 7),
    }
}

// The days 0 to 32 of a month.
fn month_sum(sum: u64, year: u64, month: u64) -> u64 {
    (0..33).fold(
        sum,
        |all, day| with_date(all, calendar::date(year, month, day)),
    )
}

// The months 0 to 13 of a year.
fn year_sum(year: u64) -> u64 {
    (0..14).fold(0, |sum, month| month_sum(sum, year, month))
}

// A line for each year, with its sum.
fn years(rt: &impl Print) {
    for year in 1979..2101 {
        let _ = println!(rt; "year {year}: {}", year_sum(year));
    }
}

// A day by its number: its date, that date asked again, and an instant of it.
fn with_day(sum: u64, mjd: u64) -> u64 {
    match calendar::civil(mjd) {
        Some(c) => {
            let named = mixed(mixed(mixed(mixed(sum, 0), c.year), c.month), c.day);
            let asked = with_date(named, calendar::date(c.year, c.month, c.day));
            with_instant(
                asked,
                calendar::instant(
                    c.year,
                    c.month,
                    c.day,
                    mjd % 24,
                    mjd % 60,
                    59 * SECOND + mjd % SECOND,
                ),
            )
        }
        None => mixed(sum, 7),
    }
}

// Every day of the bounds, and a day before and after them.
fn every_day() -> u64 {
    (44_243..88_070).fold(0, with_day)
}

// Whether a fraction agrees with a second, as the table has it: 0, or 8.
pub(crate) fn agreement(f: u64, s: u64) -> u64 {
    if calendar::fraction_agrees(f, s) {
        0
    } else {
        8
    }
}

// Whether F agrees with S, and the two below it and above it.
fn with_agreement(sum: u64, f: u64, s: u64) -> u64 {
    let least = f.saturating_sub(2) % WHOLE_DAY;
    (least..least + 5).fold(sum, |all, near| mixed(all, agreement(near, s)))
}

fn with_fraction(sum: u64, s: u64) -> u64 {
    match calendar::fraction_of(s) {
        Some(f) => with_agreement(mixed(mixed(sum, 0), f), f, s),
        None => mixed(sum, 7),
    }
}

fn with_clock(sum: u64, at: u64) -> u64 {
    let clock = calendar::clock_of(at);
    mixed(
        mixed(mixed(mixed(sum, clock.day), clock.hour), clock.minute),
        clock.second8,
    )
}

// Every second of a day and one past it, each a little later than the one before.
fn every_second() -> u64 {
    let mut sum = 0;
    for second in 0..86_401 {
        let s = second * (SECOND + 1);
        sum = with_fraction(with_clock(sum, s), s);
    }
    sum
}

pub(crate) fn all(rt: &impl Print) {
    years(rt);
    let _ = println!(rt; "days: {}", every_day());
    let _ = println!(rt; "seconds: {}", every_second());
}
