// The paper's cases of dates, fields and fractions, and questions far out of bounds.
use crate::{days, print};

// A case of the paper that asks for a date.
fn dated(rt: &impl Print, name: &str, year: u64, month: u64, day: u64) {
    let _ = print!(rt; "{name}: ");
    print::date(rt, calendar::date(year, month, day));
    let _ = println!(rt);
}

// A number of six places as the table has it: malformed is 6, above the largest is 7.
fn table_number(rt: &impl Print, field: &[u8]) {
    match field::read::decimal(field, 6, true) {
        Some(held) => print::signed(rt, field::sign::number(held.negative, held.magnitude)),
        None => print::number(rt, 6),
    }
}

// A case of the paper that reads a field of six places.
fn read(rt: &impl Print, name: &str, field: &[u8]) {
    let _ = print!(rt; "{name}: ");
    table_number(rt, field);
    let _ = println!(rt);
}

// Whether a fraction agrees with one second past midnight.
fn fraction(f: u64) -> u64 {
    days::agreement(f, 100_000_000)
}

pub(crate) fn all(rt: &impl Print) {
    dated(rt, "case 1", 2013, 4, 3);
    dated(rt, "case 2", 2012, 10, 1);
    dated(rt, "case 3", 1980, 1, 6);
    dated(rt, "case 4", 2000, 2, 29);
    dated(rt, "case 5", 2001, 2, 29);
    read(rt, "case 6", b"     -0.500000");
    read(rt, "case 7", b"     -0.000000");
    read(rt, "case 8", b"1000000.000000");
    read(rt, "case 9", b"       .500000");
    let _ = println!(rt;
        "case 11: {} {} {}",
        fraction(115_740_740),
        fraction(115_740_741),
        fraction(115_740_742)
    );
    dated(rt, "far year", u64::MAX, 1, 1);
    dated(rt, "far month", 2013, u64::MAX, 1);
    dated(rt, "far day", 2013, 4, u64::MAX);
    dated(rt, "day before", 1980, 1, 5);
    dated(rt, "last day", 2099, 12, 31);
    dated(rt, "day after", 2100, 1, 1);
}
