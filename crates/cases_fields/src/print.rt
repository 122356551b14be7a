// Answers as text: the paper's number, then the values, a blank before each.
use calendar::Dated;
use field::{Exponent, Signed};

pub(crate) fn text(rt: &impl Print, s: &[u8]) {
    let _ = rt.write_all(s);
}

pub(crate) fn number(rt: &impl Print, n: u64) {
    let _ = rt.print(n);
}

pub(crate) fn value(rt: &impl Print, n: u64) {
    let _ = print!(rt; " {n}");
}

// A minus is 1, none is 0.
fn sign(rt: &impl Print, negative: bool) {
    value(rt, u64::from(negative));
}

pub(crate) fn whole(rt: &impl Print, answer: Option<u64>) {
    match answer {
        Some(v) => {
            number(rt, 0);
            value(rt, v);
        }
        None => number(rt, 6),
    }
}

pub(crate) fn exponent(rt: &impl Print, answer: Exponent) {
    match answer {
        Exponent::Value(v) => {
            number(rt, 0);
            value(rt, v);
        }
        Exponent::Unknown => number(rt, 0),
        Exponent::Malformed => number(rt, 6),
    }
}

pub(crate) fn amount(rt: &impl Print, answer: Option<Signed>) {
    match answer {
        Some(held) => {
            number(rt, 0);
            sign(rt, held.negative);
            value(rt, held.magnitude);
        }
        None => number(rt, 6),
    }
}

// A number of the table by its sign and magnitude, taken off it again.
pub(crate) fn signed(rt: &impl Print, answer: Option<i64>) {
    match answer {
        Some(v) => {
            number(rt, 0);
            sign(rt, field::sign::is_negative(v));
            value(rt, field::sign::magnitude_of(v));
        }
        None => number(rt, 7),
    }
}

pub(crate) fn date(rt: &impl Print, answer: Option<Dated>) {
    match answer {
        Some(d) => {
            number(rt, 0);
            value(rt, d.mjd);
            value(rt, d.week);
            value(rt, d.seconds);
        }
        None => number(rt, 7),
    }
}
