// Numbers out of a text, each with one blank or LF after it.
ghost use Rattle.std.specs.Prelude.{◌<◌, ◌≤◌, length};

// The word that a text begins with, and the text after the blank or LF that ended it.
pub(crate) fn word(text: &[u8]) -> (&[u8], &[u8])
    requires { 0 < length text.now }
    ensures { length result.1.now < length text.now }
{
    let end = text
        .iter()
        .take_while(|b| !matches!(**b, b' ' | b'\n'))
        .count();
    let (word, rest) = text.split_at(end);
    match rest {
        [_, rest @ ..] => (word, rest),
        [] => (word, rest),
    }
}

// A number with one byte more: a digit, or a sign that counts for nothing here. It counts modulo 2^64.
fn with_byte(n: u64, b: u8) -> u64 {
    if b == b'-' {
        return n;
    }
    n.wrapping_mul(10).wrapping_add(u64::from(b % 16))
}

// The number that a word shows.
pub(crate) fn value_of(word: &[u8]) -> u64 {
    word.iter().fold(0, |n, b| with_byte(n, *b))
}

// The signed number that a word shows: the least one where it is below that, and 0 where it is above the largest.
fn signed_of(word: &[u8]) -> i64 {
    let magnitude = value_of(word);
    if word.starts_with(b"-") {
        0i64.saturating_sub_unsigned(magnitude)
    } else {
        i64::try_from(magnitude).unwrap_or(0)
    }
}

// Fills a list with what the words of a text show, as far as there are any, and gives the text after them.
fn filled<'a, T: Drop, F: FnMut(&[u8]) -> T>(
    text: &'a [u8],
    list: &mut [T],
    mut value_of: F,
) -> &'a [u8]
    requires { F.IsAlwaysCallable value_of }
    ensures { length result.now ≤ length text.now }
{
    let mut rest = text;
    for place in list.iter_mut() {
        if rest.is_empty() {
            break;
        }
        let (word, after) = word(rest);
        *place = value_of(word);
        rest = after;
    }
    rest
}

// Fills a list with numbers.
pub(crate) fn numbers<'a>(text: &'a [u8], list: &mut [u64]) -> &'a [u8]
    ensures { length result.now ≤ length text.now }
{
    filled(text, list, value_of)
}

// Fills a list with signed numbers.
pub(crate) fn signed_numbers<'a>(text: &'a [u8], list: &mut [i64]) -> &'a [u8]
    ensures { length result.now ≤ length text.now }
{
    filled(text, list, signed_of)
}

// Fills a list with the bytes of a text, as far as there are any.
pub(crate) fn bytes(text: &[u8], list: &mut [u8]) {
    let n = text.len().min(list.len());
    list[..n].copy_from_slice(&text[..n]);
}
