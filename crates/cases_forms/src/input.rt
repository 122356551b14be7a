// The cases of standard input, one after the other: a line of four numbers (kind, letter of the version wanted, room, length), then so many bytes.
ghost use Rattle.std.specs.Prelude.{◌<◌, length};

use crate::shown::Wanted;
use crate::{given, shown, words};
use header::Version;

// What the bytes of a case are.
#[derive(Clone, Copy, PartialEq, Eq)]
enum Kind {
    File,
    Table,
}

impl From<u64> for Kind {
    fn from(number: u64) -> Kind {
        match number {
            0 => Kind::File,
            _ => Kind::Table,
        }
    }
}

// The answers to one case.
fn answer(rt: &impl Print, kind: Kind, wanted: Wanted, bytes: &[u8]) {
    match kind {
        Kind::File => {
            let _ = println!(rt; "file {} {}", wanted.size, bytes.len());
            shown::file(rt, bytes, wanted);
        }
        Kind::Table => {
            let _ = println!(rt; "table {} {}", wanted.size, bytes.len());
            given::table(rt, bytes, wanted);
        }
    }
}

// The case that the input begins with, and the input after it.
fn case<'a>(rt: &impl Print, input: &'a [u8]) -> &'a [u8]
    requires { 0 < length input.now }
    ensures { length result.now < length input.now }
{
    let (kind, rest) = words::word(input);
    let mut front = [0; 3];
    let rest = words::numbers(rest, &mut front);
    let [letter, size, length] = front;
    let (bytes, rest) = rest.split_at((length as usize).min(rest.len()));
    let wanted = Wanted {
        version: Version::by((letter % 256) as u8),
        size,
    };
    answer(rt, Kind::from(words::value_of(kind)), wanted, bytes);
    rest
}

// Every case of the input.
fn batch(rt: &impl Print, input: &[u8]) {
    let mut rest = input;
    while !rest.is_empty() {
        rest = case(rt, rest);
    }
}

// The number of standard input.
const STDIN: i32 = 0;

// Standard input read into `room`, and its cases.
fn taken(rt: &impl Print, room: &mut [u8]) {
    let n = io::read_full(STDIN, room);
    batch(rt, &room[..n]);
}

// Standard input, of at most 1,000,000 bytes.
pub(crate) fn all(rt: &impl Print) {
    let mut room = [0u8; 1_000_000];
    taken(rt, &mut room);
}
