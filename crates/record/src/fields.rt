// The fields of a line of 80 columns, by the columns as the document counts them, from 1.
#![tactic(auto, unfolding(crate::specs::Steps::after))]

ghost use Rattle.std.specs.Prelude.{◌≡◌, ◌&&◌, [], ◌∷◌, ◌+◌, ◌-◌, ◌*◌, ◌≤◌, length, take, drop, not, eqb};
ghost use Rattle.std.specs.List.{position};
ghost use Rattle.field.specs.Digits.{is_digit};
ghost use Rattle.laws.specs.Tests.{within};
ghost use Rattle.laws.specs.Texts.{every};
ghost use Rattle.layout.specs.Fault.{clean, lower, keyed};
ghost use Rattle.layout.specs.Kind.{unless, amount_fault, amount_held, number_in, fault_in, held_in, is_lettered, same_bytes, is_blank, identifier_code, exponent};
ghost use Rattle.layout.specs.Kind.Kind.{unused, fixed, whole, decimal, flag, letter, listed, identifier, zero_whole, zero_decimal};
ghost use Rattle.layout.specs.Layout.{columns, column, part_at};
ghost use Rattle.header.specs.Letters.{modes, file_types, time_systems};
ghost use Rattle.record.specs.Times.{date_fault};
ghost use Rattle.record.specs.Rows.{amount_kind, cut};
ghost use Rattle.record.specs.Notes.{correlation};
ghost use Rattle.record.specs.Steps.{after, number_of};

use crate::notes::LARGEST_CORRELATION;
use field::{Exponent, Signed};
use header::Moment;

// The columns first to last of a line.
pub(crate) fn cut(line: &[u8; 80], first: usize, last: usize) -> &[u8]
    requires { (1 ≤ first) × (first ≤ last) × (last ≤ 80) }
    ensures bytes { result.now ≡ cut first last line.now }
    ensures wide { length result.now ≡ last - (first - 1) }
{
    let from = first - 1;
    let s = &line[..];
    &s[from..last]
}

// A text of some columns from the column `first` on, as it stands.
pub(crate) fn text<const N: usize>(line: &[u8; 80], first: usize) -> [u8; N]
    requires { (1 ≤ first) × (first + N ≤ 81) }
    ensures { result ≡ take N (drop (first - 1) line.now) }
{
    let from = first - 1;
    let mut out = [b' '; N];
    out.copy_from_slice(&line[from..from + N]);
    out
}

// Whether every byte is a blank.
pub(crate) fn is_blank(bytes: &[u8]) -> bool
    ensures { result ≡ every is_blank bytes.now }
{
    bytes.iter().all(|b| *b == b' ')
}

// The place of the first byte that is not a blank.
fn first_filled(bytes: &[u8]) -> Option<usize>
    ensures { result ≡ position (λ b. not (eqb b 32)) bytes.now }
{
    bytes.iter().position(|b| *b != b' ')
}

// Whether these are the same bytes, as many.
fn same_bytes(bytes: &[u8], these: &[u8]) -> bool
    ensures { result ≡ same_bytes bytes.now these.now }
{
    bytes == these
}

// Whether columns 4 and 5 hold a file type: a letter and a blank.
fn has_file_type(line: &[u8; 80]) -> bool
    ensures { result ≡ is_lettered (cut 4 5 line.now) file_types }
{
    let s = &line[..];
    header::is_file_type(s[3]) & (s[4] == b' ')
}

// Whether these are an identifier's letter and digits.
fn is_named(letter: u8, tens: u8, ones: u8) -> bool
    ensures { result ≡ (within 65 90 letter && (is_digit tens && is_digit ones)) }
{
    letter.is_ascii_uppercase() & tens.is_ascii_digit() & ones.is_ascii_digit()
}

// A digit's number, and 0 for all that stands below the digits.
fn figure(b: u8) -> u64
    ensures { result ≡ b - 48 }
{
    u64::from(b).saturating_sub(48)
}

// The number of two digits.
fn two_digits(tens: u8, ones: u8) -> u64
    ensures value { result ≡ (tens - 48) * 10 + (ones - 48) }
    ensures bound { result ≤ 2277 }
{
    figure(tens) * 10 + figure(ones)
}

// A letter's byte times 100, and a number.
fn identifier_code(letter: u8, number: u64) -> u64
    requires { number ≤ 2277 }
    ensures { result ≡ letter * 100 + number }
{
    u64::from(letter) * 100 + number
}

// The number of an identifier that was judged before.
pub(crate) fn identifier_of(bytes: &[u8]) -> u64
    requires { length bytes.now ≡ 3 }
    ensures { result ≡ identifier_code bytes.now }
{
    identifier_code(bytes[0], two_digits(bytes[1], bytes[2]))
}

// A line that is judged field by field, and the lowest fault found on it so far.
#[derive(Clone, Copy)]
pub(crate) struct Judge<'a> {
    pub(crate) line: &'a [u8; 80],
    pub(crate) fault: usize,
}

impl<'a> Judge<'a> {
    // Nothing is found yet.
    pub(crate) fn of(line: &'a [u8; 80]) -> Judge<'a>
        ensures { result ≡ record { line = line.entry; fault = clean } }
    {
        Judge { line, fault: 0 }
    }

    // A fault of this number at this column.
    fn found(&mut self, number: usize, at: usize)
        requires { (number ≤ 13) × (at ≤ 80) }
        ensures { self.new ≡ record self.old { fault = lower self.old.fault (keyed number at) } }
    {
        self.fault = layout::lower(self.fault, number * 128 + at);
    }

    // A fault of this number at this column where a test is not passed.
    fn check(&mut self, passed: bool, number: usize, at: usize)
        requires { (number ≤ 13) × (at ≤ 80) }
        ensures { self.new ≡ record self.old { fault = lower self.old.fault (unless passed number at) } }
    {
        if !passed {
            self.found(number, at);
        }
    }

    // Unused columns.
    #[tactic(auto, using(crate::proofs::Places::unused_place), unfolding(crate::specs::Steps::after))]
    pub(crate) fn unused(&mut self, first: usize, last: usize)
        requires { (1 ≤ first) × (first ≤ last) × (last ≤ 80) }
        ensures { self.new ≡ after (columns first last unused) self.old }
    {
        if let Some(i) = first_filled(cut(self.line, first, last)) {
            self.found(5, first + i);
        }
    }

    // A symbol (4, which names no column) or a placeholder (5).
    pub(crate) fn fixed(
        &mut self,
        number: usize,
        these: &[u8],
        blamed: usize,
        first: usize,
        last: usize,
    )
        requires { (1 ≤ first) × (first ≤ last) × (last ≤ 80) × (blamed ≤ 80) × (number ≤ 13) }
        ensures { self.new ≡ after (part_at blamed first last (fixed number these.now)) self.old }
    {
        let same = same_bytes(cut(self.line, first, last), these);
        self.check(same, number, blamed);
    }

    // The two symbols that a record begins with.
    pub(crate) fn symbols(&mut self, first: u8, second: u8)
        ensures { self.new ≡ after (part_at 0 1 2 (fixed 4 (first ∷ second ∷ []))) self.old }
    {
        self.fixed(4, &[first, second], 0, 1, 2);
    }

    // A whole number within its bounds.
    pub(crate) fn whole(
        &mut self,
        low: u64,
        high: u64,
        blamed: usize,
        first: usize,
        last: usize,
    ) -> u64
        requires { (1 ≤ first) × (first ≤ last) × (last ≤ 80) × (blamed ≤ 80) }
        ensures judged { self.new ≡ after (part_at blamed first last (whole low high)) self.old }
        ensures value { result ≡ number_of (part_at blamed first last (whole low high)) self.old }
    {
        let Some(n) = field::read::whole(cut(self.line, first, last)) else {
            self.found(6, blamed);
            return 0;
        };
        self.check(laws::within(low, high, n), 7, blamed);
        n
    }

    // A number that was read, of a magnitude within its bounds.
    fn amount_read(&mut self, read: Option<Signed>, low: u64, high: u64, at: usize) -> u64
        requires { at ≤ 80 }
        ensures judged { self.new ≡ record self.old { fault = lower self.old.fault (amount_fault at low high read) } }
        ensures value { result ≡ amount_held read }
    {
        let Some(Signed { magnitude, .. }) = read else {
            self.found(6, at);
            return 0;
        };
        self.check(laws::within(low, high, magnitude), 7, at);
        magnitude
    }

    // A decimal without a minus within its bounds.
    pub(crate) fn decimal(
        &mut self,
        places: usize,
        low: u64,
        high: u64,
        first: usize,
        last: usize,
    ) -> u64
        requires { (1 ≤ first) × (first ≤ last) × (last ≤ 80) }
        ensures judged { self.new ≡ after (columns first last (decimal places low high)) self.old }
        ensures value { result ≡ number_of (columns first last (decimal places low high)) self.old }
    {
        let read = field::read::decimal(cut(self.line, first, last), places, false);
        self.amount_read(read, low, high, first)
    }

    // A placeholder of zero: an integer field, a decimal field.
    pub(crate) fn zero_whole(&mut self, first: usize, last: usize)
        requires { (1 ≤ first) × (first ≤ last) × (last ≤ 80) }
        ensures { self.new ≡ after (columns first last zero_whole) self.old }
    {
        let zero = matches!(field::read::whole(cut(self.line, first, last)), Some(0));
        self.check(zero, 5, first);
    }

    pub(crate) fn zero_decimal(&mut self, places: usize, first: usize, last: usize)
        requires { (1 ≤ first) × (first ≤ last) × (last ≤ 80) }
        ensures { self.new ≡ after (columns first last (zero_decimal places)) self.old }
    {
        let read = field::read::decimal(cut(self.line, first, last), places, false);
        self.check(matches!(read, Some(Signed { magnitude: 0, .. })), 5, first);
    }

    // A date that is none within the bounds, at column 4.
    pub(crate) fn date(&mut self, m: Moment)
        ensures { self.new ≡ record self.old { fault = lower self.old.fault (date_fault m) } }
    {
        if calendar::date(m.year, m.month, m.day).is_none() {
            self.found(7, 4);
        }
    }

    // The mode in column 3: P or V.
    pub(crate) fn mode(&mut self) -> u8
        ensures judged { self.new ≡ after (column 3 (letter modes)) self.old }
        ensures value { result ≡ number_of (column 3 (letter modes)) self.old }
    {
        let letter = self.line[2];
        self.check(header::is_mode(letter), 6, 3);
        letter
    }

    // The file type in columns 4 and 5: a letter and a blank.
    pub(crate) fn file_type(&mut self) -> u8
        ensures judged { self.new ≡ after (columns 4 5 (letter file_types)) self.old }
        ensures value { result ≡ number_of (columns 4 5 (letter file_types)) self.old }
    {
        self.check(has_file_type(self.line), 6, 4);
        self.line[3]
    }

    // The time system in columns 10 to 12: one of the words listed.
    pub(crate) fn time_system(&mut self)
        ensures { self.new ≡ after (columns 10 12 (listed time_systems)) self.old }
    {
        let listed = header::is_time_system(self.line[9], self.line[10], self.line[11]);
        self.check(listed, 6, 10);
    }

    // An identifier as one number: `G 7` is malformed, `G00` out of bounds.
    fn identifier_read(&mut self, bytes: &[u8], at: usize) -> u64
        requires { (length bytes.now ≡ 3) × (at ≤ 80) }
        ensures judged { self.new ≡ record self.old { fault = lower self.old.fault (fault_in identifier at bytes.now) } }
        ensures value { result ≡ number_in (held_in identifier bytes.now) }
    {
        if !is_named(bytes[0], bytes[1], bytes[2]) {
            self.found(6, at);
            return 0;
        }
        let number = two_digits(bytes[1], bytes[2]);
        self.check(laws::within(1, 99, number), 7, at);
        identifier_code(bytes[0], number)
    }

    pub(crate) fn identifier(&mut self, first: usize, last: usize) -> u64
        requires { (1 ≤ first) × (last ≤ 80) × (last ≡ first + 2) }
        ensures judged { self.new ≡ after (columns first last identifier) self.old }
        ensures value { result ≡ number_of (columns first last identifier) self.old }
    {
        self.identifier_read(cut(self.line, first, last), first)
    }

    // A coordinate or velocity of 14 columns, or where `clock` says so a clock or its rate, judged and not kept: rows are read when they have been judged.
    pub(crate) fn amount(&mut self, clock: bool, first: usize, last: usize)
        requires { (1 ≤ first) × (first ≤ last) × (last ≤ 80) }
        ensures { self.new ≡ after (columns first last (amount_kind clock)) self.old }
    {
        let bytes = cut(self.line, first, last);
        let answer = if clock {
            field::read::clock(bytes, 6)
        } else {
            field::read::decimal(bytes, 6, true)
        };
        self.amount_read(answer, 0, field::sign::LARGEST, first);
    }

    // An exponent: a whole number or blank.
    pub(crate) fn exponent(&mut self, first: usize, last: usize)
        requires { (1 ≤ first) × (first ≤ last) × (last ≤ 80) }
        ensures { self.new ≡ after (columns first last exponent) self.old }
    {
        if let Exponent::Malformed = field::read::exponent(cut(self.line, first, last)) {
            self.found(6, first);
        }
    }

    // A correlation: a whole number that may have a minus, or blank.
    pub(crate) fn correlation(&mut self, first: usize, last: usize)
        requires { (1 ≤ first) × (first ≤ last) × (last ≤ 80) }
        ensures { self.new ≡ after (columns first last correlation) self.old }
    {
        let bytes = cut(self.line, first, last);
        if !is_blank(bytes) {
            self.amount_read(
                field::read::signed_whole(bytes),
                0,
                LARGEST_CORRELATION,
                first,
            );
        }
    }

    // A flag: its letter or blank.
    pub(crate) fn flag(&mut self, sign: u8, at: usize)
        requires { (1 ≤ at) × (at ≤ 80) }
        ensures { self.new ≡ after (column at (flag sign)) self.old }
    {
        let b = self.line[at - 1];
        self.check((b == sign) | (b == b' '), 6, at);
    }
}
