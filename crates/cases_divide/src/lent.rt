// Lent numbers, which hold a mark before: those that were filled, and whether the others were kept.
use crate::print;

// The mark.
pub(crate) const MARK: u64 = 7777;

// Whether the numbers that were not filled are marks.
fn others(rt: &impl Print, numbers: &[u64]) {
    let kept = numbers.iter().all(|n| *n == MARK);
    let _ = println!(rt; "{}", if kept { "kept" } else { "changed" });
}

// Lent numbers of which the first n are filled with the lengths of files.
pub(crate) fn lengths(rt: &impl Print, numbers: &[u64], n: u64) {
    let (filled, rest) = numbers.split_at((n as usize).min(numbers.len()));
    for length in filled {
        let _ = println!(rt; "length {length}");
    }
    others(rt, rest);
}

// Lent numbers of which the first n are filled with the identifiers of satellites.
pub(crate) fn identifiers(rt: &impl Print, numbers: &[u64], n: u64) {
    let (filled, rest) = numbers.split_at((n as usize).min(numbers.len()));
    for identifier in filled {
        print::identifier(rt, *identifier);
    }
    others(rt, rest);
}
