// Reads a field from each line of standard input, and prints its answer and its text written again, in its own columns and in one less.
// A line is a kind (W whole, S signed, E exponent, U decimal without a minus, D decimal with one, C clock), two digits for the places, the field.
use crate::print;
use field::{Exponent, Signed};

// The most columns that are shown: two more than a field has.
const MOST: usize = 20;

// The number of standard input.
const STDIN: i32 = 0;

// What a writer puts into so many columns that held a mark in each, where they are no more than the bound: 20 are there, whatever the bound says.
fn written<W: FnOnce(&mut [u8]) -> bool>(rt: &impl Print, width: usize, put: W)
    requires { (columns : _) → W.pre put columns }
{
    let mut columns = [b'#'; 20];
    if width <= MOST {
        let _ = put(&mut columns[..width]);
        let _ = print!(rt; " |");
        print::text(rt, &columns[..width]);
        let _ = print!(rt; "|");
    }
}

fn written_whole(rt: &impl Print, width: usize, v: u64) {
    written(rt, width, |columns| field::write::put_whole(columns, v));
}

fn written_signed(rt: &impl Print, width: usize, negative: bool, magnitude: u64) {
    written(
        rt,
        width,
        |columns| field::write::put_signed_whole(columns, negative, magnitude),
    );
}

fn written_exponent(rt: &impl Print, width: usize, exponent: Exponent) {
    written(
        rt,
        width,
        |columns| field::write::put_exponent(columns, exponent),
    );
}

fn written_decimal(rt: &impl Print, width: usize, places: usize, negative: bool, magnitude: u64) {
    written(
        rt,
        width,
        |columns| field::write::put_decimal(columns, places, negative, magnitude),
    );
}

// One column less, where there is one.
fn narrower(width: usize) -> usize {
    width.saturating_sub(1)
}

fn whole(rt: &impl Print, s: &[u8]) {
    let answer = field::read::whole(s);
    print::whole(rt, answer);
    if let Some(v) = answer {
        written_whole(rt, s.len(), v);
        written_whole(rt, narrower(s.len()), v);
    }
}

fn signed_whole(rt: &impl Print, s: &[u8]) {
    let answer = field::read::signed_whole(s);
    print::amount(rt, answer);
    if let Some(held) = answer {
        written_signed(rt, s.len(), held.negative, held.magnitude);
        written_signed(rt, narrower(s.len()), held.negative, held.magnitude);
    }
}

fn exponent(rt: &impl Print, s: &[u8]) {
    let answer = field::read::exponent(s);
    print::exponent(rt, answer);
    written_exponent(rt, s.len(), answer);
    written_exponent(rt, narrower(s.len()), answer);
}

// The answer of a decimal or a clock that stood in so many columns, its text written again, and its signed number.
fn decimal_answer(rt: &impl Print, answer: Option<Signed>, width: usize, places: usize) {
    print::amount(rt, answer);
    if let Some(held) = answer {
        written_decimal(rt, width, places, held.negative, held.magnitude);
        written_decimal(rt, narrower(width), places, held.negative, held.magnitude);
        print::text(rt, b" ");
        print::signed(rt, field::sign::number(held.negative, held.magnitude));
    }
}

fn decimal(rt: &impl Print, s: &[u8], places: usize, signed: bool) {
    decimal_answer(rt, field::read::decimal(s, places, signed), s.len(), places);
}

fn clock(rt: &impl Print, s: &[u8], places: usize) {
    decimal_answer(rt, field::read::clock(s, places), s.len(), places);
}

// The number of the places, of two digits.
fn places_of(tens: u8, ones: u8) -> usize {
    usize::from(tens % 16) * 10 + usize::from(ones % 16)
}

// One line's field by its kind.
fn field_of(rt: &impl Print, kind: u8, places: usize, s: &[u8]) {
    match kind {
        b'W' => whole(rt, s),
        b'S' => signed_whole(rt, s),
        b'E' => exponent(rt, s),
        b'U' => decimal(rt, s, places, false),
        b'D' => decimal(rt, s, places, true),
        b'C' => clock(rt, s, places),
        _ => print::text(rt, b"?"),
    }
}

fn line(rt: &impl Print, s: &[u8]) {
    let [kind, tens, ones, field @ ..] = s else {
        return;
    };
    field_of(rt, *kind, places_of(*tens, *ones), field);
    let _ = println!(rt);
}

fn lines(rt: &impl Print, input: &[u8]) {
    for s in input.split(|b| *b == b'\n') {
        line(rt, s);
    }
}

pub(crate) fn all(rt: &impl Print) {
    let mut input = [0u8; 65536];
    let n = io::read_full(STDIN, &mut input);
    lines(rt, &input[..n]);
}
