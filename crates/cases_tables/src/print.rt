// Answers as text. What cannot be written is passed over.
use std::fmt;

// Bytes as they stand, which need not be text.
pub(crate) fn bytes(rt: &impl Print, s: &[u8]) {
    let _ = rt.write_all(s);
}

// A satellite's identifier: 7107 is G07.
pub(crate) fn identifier(rt: &impl Print, n: u64) {
    bytes(rt, &[(n / 100 % 256) as u8]);
    let _ = print!(rt; "{:02}", n % 100);
}

// A float that is a whole number, as one; any other is followed by a mark.
#[derive(Clone, Copy)]
pub(crate) struct Float(pub f64);

impl fmt::Display for Float {
    fn fmt<W: fmt::Write>(&self, f: &mut fmt::Formatter<W>) -> fmt::Result {
        let whole = std::num::saturating_f64_to_i64(self.0);
        let wrong = std::num::nearest_i64_to_f64(whole) != self.0;
        write!(f, "{whole}{}", if wrong { "?" } else { "" })
    }
}

// What is absent, which is no number; a number is followed by a mark.
#[derive(Clone, Copy)]
pub(crate) struct AbsentFloat(pub f64);

impl fmt::Display for AbsentFloat {
    fn fmt<W: fmt::Write>(&self, f: &mut fmt::Formatter<W>) -> fmt::Result {
        let wrong = self.0 == self.0;
        write!(f, "absent{}", if wrong { "?" } else { "" })
    }
}
