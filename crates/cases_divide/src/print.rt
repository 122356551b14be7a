// Answers as text. What cannot be written is passed over.
use std::fmt;

// Bytes as they stand, which need not be text.
pub(crate) fn bytes(rt: &impl Print, s: &[u8]) {
    let _ = rt.write_all(s);
}

// A line with a satellite's identifier: 7107 is G07.
pub(crate) fn identifier(rt: &impl Print, n: u64) {
    let _ = print!(rt; "identifier ");
    bytes(rt, &[(n / 100 % 256) as u8]);
    let _ = println!(rt; "{:02}", n % 100);
}

// The end of a line, with the letter of a version.
pub(crate) fn version(rt: &impl Print, letter: u8) {
    bytes(rt, &[b' ', b'|', letter, b'|', b'\n']);
}

// A mark that something is not as it must be.
pub(crate) fn mark(wrong: bool) -> &'static str {
    if wrong { "?" } else { "" }
}

// A float that is a whole number, as one; any other is followed by a mark.
#[derive(Clone, Copy)]
pub(crate) struct Float(pub f64);

impl fmt::Display for Float {
    fn fmt<W: fmt::Write>(&self, f: &mut fmt::Formatter<W>) -> fmt::Result {
        let whole = std::num::saturating_f64_to_i64(self.0);
        let wrong = std::num::nearest_i64_to_f64(whole) != self.0;
        write!(f, "{whole}{}", mark(wrong))
    }
}
