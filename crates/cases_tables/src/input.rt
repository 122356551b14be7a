// The cases of standard input, one after the other: a line of nine numbers, then so many bytes as the first of them says.
ghost use Rattle.std.specs.Prelude.{◌<◌, length, IfSome};

use crate::cases;
use crate::cases::Case;

// A number with one more digit, of which twelve are kept.
fn with_digit(n: u64, digit: u8) -> u64 {
    (n % 100_000_000_000) * 10 + u64::from(digit % 16)
}

// The k-th number of a line, counted from 0: in `12 7` number 1 is 7, and number 2 is 0 as there is none.
fn number(line: &[u8], k: usize) -> u64 {
    let word = line.split(|b| *b == b' ').nth(k).unwrap_or_default();
    word.iter().fold(0, |n, digit| with_digit(n, *digit))
}

// What the line of a case lends and asks.
fn case_of(line: &[u8]) -> Case {
    Case {
        length: number(line, 0),
        identifiers: number(line, 1),
        exponents: number(line, 2),
        comments: number(line, 3),
        rows: number(line, 4),
        comment: number(line, 5),
        epoch: number(line, 6),
        satellite: number(line, 7),
        name: number(line, 8),
    }
}

// The line that a text begins with, and the text after its LF; none where it has no LF.
fn first_line(text: &[u8]) -> Option<(&[u8], &[u8])>
    ensures { IfSome result (λ parts. length parts.1.now < length text.now) }
{
    let end = text.iter().position(|b| *b == b'\n')?;
    Some((&text[..end], &text[end + 1..]))
}

// Every case of the input.
fn batch(rt: &impl Print, input: &[u8]) {
    let mut rest = input;
    while let Some((line, after)) = first_line(rest) {
        let case = case_of(line);
        let (file, others) = after.split_at((case.length as usize).min(after.len()));
        cases::answer(rt, case, file);
        rest = others;
    }
}

// The number of standard input.
const STDIN: i32 = 0;

// Standard input read into `room`, and its cases.
fn taken(rt: &impl Print, room: &mut [u8]) {
    let n = io::read_full(STDIN, room);
    batch(rt, &room[..n]);
}

// Standard input, of at most 1,000,000 bytes.
pub(crate) fn all(rt: &impl Print) {
    let mut room = [0u8; 1_000_000];
    taken(rt, &mut room);
}
