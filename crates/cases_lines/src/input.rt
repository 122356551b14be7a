// The cases of standard input, one to a line: a letter for the kind, three digits for how many satellites are left, and the line to read; or `w`, three
// digits for the room, and the record to write.
use crate::{cases, written};

// The number of three digits.
fn digits(hundreds: u8, tens: u8, ones: u8) -> u64 {
    u64::from(hundreds % 16) * 100 + u64::from(tens % 16) * 10 + u64::from(ones % 16)
}

// One case; what has no kind or digits is passed over.
fn case(rt: &impl Print, s: &[u8]) {
    let [letter, hundreds, tens, ones, rest @ ..] = s else {
        return;
    };
    let argument = digits(*hundreds, *tens, *ones);
    if *letter == b'w' {
        written::answer(rt, argument, rest);
    } else {
        cases::answer(rt, *letter, argument, &layout::pad(rest));
    }
}

// Every case of the input.
fn lines(rt: &impl Print, input: &[u8]) {
    for line in input.split(|b| *b == b'\n') {
        case(rt, line);
    }
}

// The number of standard input.
const STDIN: i32 = 0;

// Standard input read into `room`, and its cases.
fn taken(rt: &impl Print, room: &mut [u8]) {
    let n = io::read_full(STDIN, room);
    lines(rt, &room[..n]);
}

// Standard input, of at most 1,000,000 bytes.
pub(crate) fn all(rt: &impl Print) {
    let mut room = [0u8; 1_000_000];
    taken(rt, &mut room);
}
