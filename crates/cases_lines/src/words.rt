// Values out of a case: bytes by their place, and numbers as words, each with one blank after it.
use record::Signed;
use std::array;

// The byte at k; a blank where the case has ended.
pub(crate) fn byte(s: &[u8], k: usize) -> u8 {
    s.get(k).copied().unwrap_or(b' ')
}

// So many bytes from `from` on, with blanks where the case has ended.
pub(crate) fn text<const N: usize>(s: &[u8], from: usize) -> [u8; N] {
    let rest = s.get(from..).unwrap_or_default();
    array::from_fn(|k| byte(rest, k))
}

// What a byte of a word counts: a digit as what it shows, the letter of an identifier as its byte, so that G07 is 7107.
fn digit_of(b: u8) -> u64 {
    if b < b'A' {
        u64::from(b % 16)
    } else {
        u64::from(b)
    }
}

// A number with one byte more of its word: the minus, or a digit. It counts modulo 2^64.
fn with_byte(n: Signed, b: u8) -> Signed {
    if b == b'-' {
        return Signed {
            negative: true,
            ..n
        };
    }
    Signed {
        magnitude: n.magnitude.wrapping_mul(10).wrapping_add(digit_of(b)),
        ..n
    }
}

// The number that a word shows.
fn value_of(word: &[u8]) -> Signed {
    let zero = Signed {
        negative: false,
        magnitude: 0,
    };
    word.iter().fold(zero, |n, b| with_byte(n, *b))
}

// The number of word k, counted from 0; 0 where there is none.
pub(crate) fn signed(s: &[u8], k: usize) -> Signed {
    value_of(s.split(|b| *b == b' ').nth(k).unwrap_or_default())
}

// The same of a number that has no sign.
pub(crate) fn number(s: &[u8], k: usize) -> u64 {
    signed(s, k).magnitude
}

// Whether word k is another number than 0.
pub(crate) fn mark(s: &[u8], k: usize) -> bool {
    number(s, k) != 0
}

// Words 1 to 17.
pub(crate) fn slots(s: &[u8]) -> [u64; 17] {
    array::from_fn(|k| number(s, k + 1))
}
