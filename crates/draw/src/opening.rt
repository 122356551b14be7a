// Lines 1 and 2, and the epoch lines, written.
ghost use Rattle.std.specs.Prelude.{◌≡◌};
ghost use Rattle.layout.specs.Inking.{inked, end_from, line_end};
ghost use Rattle.layout.specs.Line.{Lays};
ghost use Rattle.record.specs.Times.{time_items, moment_values};
ghost use Rattle.record.specs.Opening.{text_items, text_values, first_items, first_values, first_line, second_items, second_values, second_line, epoch_items, epoch_line};

use crate::columns;
use crate::ended::lay_ended;
use header::{Moment, Rules, Texts};
use record::{Epoch, First, Second};

// The last column of a date and time that is not blank; else the end of what stands before it.
fn moment_end(m: Moment, earlier: usize) -> usize
    ensures { result ≡ end_from earlier time_items (moment_values m) }
{
    let a = columns::whole_end(m.year, 4, 7, earlier);
    let b = columns::whole_end(m.month, 9, 10, a);
    let c = columns::whole_end(m.day, 12, 13, b);
    let d = columns::whole_end(m.hour, 15, 16, c);
    let e = columns::whole_end(m.minute, 18, 19, d);
    columns::decimal_end(8, m.second8, 21, 31, e)
}

// Columns 4 to 31 of a line.
fn put_moment(line: &mut [u8], m: Moment)
    ensures { line.new ≡ inked time_items (moment_values m) line.old }
{
    columns::ink_whole(line, m.year, 4, 7);
    columns::ink_blank(line, 8, 8);
    columns::ink_whole(line, m.month, 9, 10);
    columns::ink_blank(line, 11, 11);
    columns::ink_whole(line, m.day, 12, 13);
    columns::ink_blank(line, 14, 14);
    columns::ink_whole(line, m.hour, 15, 16);
    columns::ink_blank(line, 17, 17);
    columns::ink_whole(line, m.minute, 18, 19);
    columns::ink_blank(line, 20, 20);
    columns::ink_decimal(line, 8, m.second8, 21, 31);
}

// The last column of the four texts of line 1 that is not blank; else the end of what stands before them.
fn texts_end(t: Texts, earlier: usize) -> usize
    ensures { result ≡ end_from earlier text_items (text_values t) }
{
    let a = columns::text_end(&t.data_used, 41, 45, earlier);
    let b = columns::text_end(&t.coordinates, 47, 51, a);
    let c = columns::text_end(&t.orbit, 53, 55, b);
    columns::text_end(&t.agency, 57, 60, c)
}

// Columns 41 to 80 of line 1: the four texts.
fn put_texts(line: &mut [u8], t: Texts)
    ensures { line.new ≡ inked text_items (text_values t) line.old }
{
    columns::ink_text(line, &t.data_used, 41, 45);
    columns::ink_blank(line, 46, 46);
    columns::ink_text(line, &t.coordinates, 47, 51);
    columns::ink_blank(line, 52, 52);
    columns::ink_text(line, &t.orbit, 53, 55);
    columns::ink_blank(line, 56, 56);
    columns::ink_text(line, &t.agency, 57, 60);
    columns::ink_blank(line, 61, 80);
}

// The last column of line 1 that is not blank: the version stands in column 2, the mode in 3.
fn first_end(rules: Rules, f: First) -> usize
    ensures { result ≡ line_end (first_items rules) (first_values f) }
{
    let symbol = [b'#', rules.letter];
    let mode = [f.mode];
    let a = columns::text_end(&symbol, 1, 2, 0);
    let b = columns::text_end(&mode, 3, 3, a);
    let c = moment_end(f.start, b);
    let d = columns::whole_end(f.epochs, 33, 39, c);
    texts_end(f.texts, d)
}

// Line 1 in the bytes up to its end.
fn put_first(line: &mut [u8], rules: Rules, f: First)
    ensures { line.new ≡ inked (first_items rules) (first_values f) line.old }
{
    let symbol = [b'#', rules.letter];
    columns::ink_fixed(line, &symbol, 1, 2);
    columns::ink_letter(line, f.mode, 3, 3);
    put_moment(line, f.start);
    columns::ink_blank(line, 32, 32);
    columns::ink_whole(line, f.epochs, 33, 39);
    columns::ink_blank(line, 40, 40);
    put_texts(line, f.texts);
}

// Line 1 laid at the front of `out`, where there is room, and its length in any case.
pub fn write_first(rules: Rules, f: First, out: &mut [u8]) -> usize
    ensures lays { Lays (first_line rules f) out.old result out.new }
{
    lay_ended(first_end(rules, f), out, |line| put_first(line, rules, f))
}

// The last column of line 2 that is not blank.
fn second_end(s: Second) -> usize
    ensures { result ≡ line_end second_items (second_values s) }
{
    let a = columns::whole_end(s.week, 4, 7, 2);
    let b = columns::decimal_end(8, s.seconds8, 9, 23, a);
    let c = columns::decimal_end(8, s.interval8, 25, 38, b);
    let d = columns::whole_end(s.mjd, 40, 44, c);
    columns::decimal_end(13, s.fraction13, 46, 60, d)
}

// Line 2 in the bytes up to its end.
fn put_second(line: &mut [u8], s: Second)
    ensures { line.new ≡ inked second_items (second_values s) line.old }
{
    columns::ink_fixed(line, b"##", 1, 2);
    columns::ink_blank(line, 3, 3);
    columns::ink_whole(line, s.week, 4, 7);
    columns::ink_blank(line, 8, 8);
    columns::ink_decimal(line, 8, s.seconds8, 9, 23);
    columns::ink_blank(line, 24, 24);
    columns::ink_decimal(line, 8, s.interval8, 25, 38);
    columns::ink_blank(line, 39, 39);
    columns::ink_whole(line, s.mjd, 40, 44);
    columns::ink_blank(line, 45, 45);
    columns::ink_decimal(line, 13, s.fraction13, 46, 60);
    columns::ink_blank(line, 61, 80);
}

// The same of line 2.
pub fn write_second(s: Second, out: &mut [u8]) -> usize
    ensures lays { Lays (second_line s) out.old result out.new }
{
    lay_ended(second_end(s), out, |line| put_second(line, s))
}

// An epoch line in the bytes up to its end.
fn put_epoch(line: &mut [u8], m: Moment)
    ensures { line.new ≡ inked epoch_items (moment_values m) line.old }
{
    columns::ink_fixed(line, b"* ", 1, 2);
    columns::ink_blank(line, 3, 3);
    put_moment(line, m);
    columns::ink_blank(line, 32, 80);
}

// The same of an epoch line, of which column 1 alone may not be blank.
pub fn write_epoch(e: Epoch, out: &mut [u8]) -> usize
    ensures lays { Lays (epoch_line e) out.old result out.new }
{
    let end = moment_end(e.moment, 1);
    lay_ended(end, out, |line| put_epoch(line, e.moment))
}
