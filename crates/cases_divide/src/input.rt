// The cases of standard input, one after the other: a line of numbers (room for lengths, 1 for a walk, room for identifiers, how many identifiers follow, how
// many bytes), the identifiers after them, and then so many bytes.
ghost use Rattle.std.specs.Prelude.{◌<◌, ◌≤◌, length};

use crate::{divided, walked};

// A number with one more digit, of which twelve are kept.
fn with_digit(n: u64, digit: u8) -> u64 {
    (n % 100_000_000_000) * 10 + u64::from(digit % 16)
}

// The number that some digits show.
fn value_of(digits: &[u8]) -> u64 {
    digits.iter().fold(0, |n, digit| with_digit(n, *digit))
}

// The number that a text begins with, and the text after the byte that ended it, which is any but a digit.
fn number(text: &[u8]) -> (u64, &[u8])
    requires { 0 < length text.now }
    ensures { length result.1.now < length text.now }
{
    let end = text.iter().take_while(|b| b.is_ascii_digit()).count();
    let (digits, rest) = text.split_at(end);
    match rest {
        [_, rest @ ..] => (value_of(digits), rest),
        [] => (value_of(digits), rest),
    }
}

// Fills a list with the numbers that a text begins with, as far as there are any, and gives the text after them.
fn numbers<'a>(text: &'a [u8], list: &mut [u64]) -> &'a [u8]
    ensures { length result.now ≤ length text.now }
{
    let mut rest = text;
    for place in list.iter_mut() {
        if rest.is_empty() {
            break;
        }
        let (value, after) = number(rest);
        *place = value;
        rest = after;
    }
    rest
}

// The answers to one case: how its bytes divide into a room and, where they are walked, what the walk gives with room for `most` identifiers.
fn answer<'a>(
    rt: &impl Print,
    room: u64,
    walks: bool,
    most: u64,
    identifiers: &'a [u64],
    bytes: &'a [u8],
) {
    let _ = println!(rt; "case {}", bytes.len());
    divided::shown(rt, bytes, room);
    if walks {
        walked::shown(rt, bytes, most, identifiers);
    }
}

// The case that the input begins with, and the input after it.
fn case<'a>(rt: &impl Print, input: &'a [u8]) -> &'a [u8]
    requires { 0 < length input.now }
    ensures { length result.now < length input.now }
{
    let (room, rest) = number(input);
    let mut front = [0; 4];
    let rest = numbers(rest, &mut front);
    let [walks, most, named, length] = front;
    let mut identifiers = [0; 1000];
    let n = (named as usize).min(1000);
    let rest = numbers(rest, &mut identifiers[..n]);
    let (bytes, rest) = rest.split_at((length as usize).min(rest.len()));
    answer(rt, room, walks == 1, most, &identifiers[..n], bytes);
    rest
}

// Every case of the input.
fn batch(rt: &impl Print, input: &[u8]) {
    let mut rest = input;
    while !rest.is_empty() {
        rest = case(rt, rest);
    }
}

// The number of standard input.
const STDIN: i32 = 0;

// Standard input read into `room`, and its cases.
fn taken(rt: &impl Print, room: &mut [u8]) {
    let n = io::read_full(STDIN, room);
    batch(rt, &room[..n]);
}

// Standard input, of at most 1,000,000 bytes.
pub(crate) fn all(rt: &impl Print) {
    let mut room = [0u8; 1_000_000];
    taken(rt, &mut room);
}
