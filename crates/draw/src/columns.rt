// A line put in place field by field, by the columns as the document counts them, in the bytes up to its end. What does not fit its columns leaves
// them blank; a field that the line does not reach is left out, and of a text what the line has columns for is put.
ghost use Rattle.std.specs.Prelude.{◌≡◌, cond, [], ◌∷◌, List, ℕ, ◌+◌, ◌-◌, ◌≤◌, length};
ghost use Rattle.laws.specs.Texts.{blanks};
ghost use Rattle.field.specs.Show.{put_signed};
ghost use Rattle.layout.specs.Kind.{shown_in, shown_text, show_identifier};
ghost use Rattle.layout.specs.Kind.Kind.{whole, decimal, signed, maybe, flag, identifier};
ghost use Rattle.layout.specs.Kind.Held.{one, amount, mark};
ghost use Rattle.layout.specs.Inking.{text_end, inked_whole, inked_part};
ghost use Rattle.record.specs.Notes.{correlation};
ghost use Rattle.draw.specs.Calls.{Takes, Leaves};

use record::Signed;
use record::notes::UNNOTED;

// A whole number in all of `out`.
pub(crate) fn put_number(out: &mut [u8], n: u64)
    ensures { out.new ≡ shown_in (whole 0 0) (length out.old) (one n) }
{
    if !field::write::put_whole(out, n) {
        laws::fill_blanks(out);
    }
}

// A decimal in all of `out`.
fn put_places(out: &mut [u8], places: usize, n: Signed)
    ensures { out.new ≡ shown_in (signed places) (length out.old) (amount n.negative n.magnitude) }
{
    if !field::write::put_decimal(out, places, n.negative, n.magnitude) {
        laws::fill_blanks(out);
    }
}

// A whole number that may be unknown, in all of `out`: blanks where it is the one that stands for unknown.
fn put_known(out: &mut [u8], n: u64, unknown: u64)
    ensures { out.new ≡ shown_in (maybe unknown) (length out.old) (one n) }
{
    if (n == unknown) | !field::write::fits_whole(out.len(), n) {
        laws::fill_blanks(out);
    } else {
        put_number(out, n);
    }
}

// A whole number with a sign in all of `out`.
fn put_signed(out: &mut [u8], n: Signed)
    ensures { out.new ≡ put_signed n.negative n.magnitude (blanks (length out.old)) }
{
    if !field::write::put_signed_whole(out, n.negative, n.magnitude) {
        laws::fill_blanks(out);
    }
}

// A correlation in all of `out`: blanks where it is unknown.
fn put_correlation(out: &mut [u8], n: Signed)
    ensures { out.new ≡ shown_in correlation (length out.old) (amount n.negative n.magnitude) }
{
    if n.magnitude == UNNOTED {
        laws::fill_blanks(out);
    } else {
        put_signed(out, n);
    }
}

// A text in all of `out`.
fn put_text(out: &mut [u8], text: &[u8])
    ensures { out.new ≡ shown_text (length out.old) text.now }
{
    laws::fill_blanks(out);
    layout::copy_front(out, text);
}

// An identifier in all of `out`.
pub(crate) fn put_identifier(out: &mut [u8], code: u64)
    requires { length out.old ≡ 3 }
    ensures { out.new ≡ show_identifier code }
{
    let number = code % 100;
    let text = [
        (code / 100 % 128) as u8,
        48 + (number / 10) as u8,
        48 + (number % 10) as u8,
    ];
    out.copy_from_slice(&text);
}

// These columns of a line, in which `put` writes, where the line has them all.
pub(crate) fn ink_in<F: FnOnce(&mut [u8])>(line: &mut [u8], first: usize, last: usize, put: F)
    requires columns { (1 ≤ first) × (first ≤ last) }
    requires callable { Takes F.FnOnce put (last - (first - 1)) }
    ensures { (bytes : List ℕ) → Leaves F.FnOnce put (last - (first - 1)) bytes → line.new ≡ inked_whole first last bytes line.old }
{
    if last <= line.len() {
        put(&mut line[first - 1..last]);
    }
}

// Unused columns of a line, which are blank.
pub(crate) fn ink_blank(line: &mut [u8], first: usize, last: usize)
    requires { (1 ≤ first) × (first ≤ last) }
    ensures { line.new ≡ inked_whole first last (blanks (last - (first - 1))) line.old }
{
    ink_in(line, first, last, |part| laws::fill_blanks(part));
}

// These bytes in a line's columns: a symbol or a placeholder.
pub(crate) fn ink_fixed(line: &mut [u8], these: &[u8], first: usize, last: usize)
    requires { (1 ≤ first) × (first ≤ last) × (length these.now ≡ last - (first - 1)) }
    ensures { line.new ≡ inked_part first last these.now line.old }
{
    let from = first - 1;
    if from < line.len() {
        layout::copy_front(&mut line[from..], these);
    }
}

// A text, which is cut or filled up with blanks to its columns.
pub(crate) fn ink_text(line: &mut [u8], text: &[u8], first: usize, last: usize)
    requires { (1 ≤ first) × (first ≤ last) }
    ensures { line.new ≡ inked_part first last (shown_text (last - (first - 1)) text.now) line.old }
{
    let from = first - 1;
    let to = last.min(line.len());
    if from < to {
        put_text(&mut line[from..to], text);
    }
}

// A letter, and blanks after it.
pub(crate) fn ink_letter(line: &mut [u8], letter: u8, first: usize, last: usize)
    requires { (1 ≤ first) × (first ≤ last) }
    ensures { line.new ≡ inked_part first last (shown_text (last - (first - 1)) (letter ∷ [])) line.old }
{
    ink_text(line, &[letter], first, last);
}

pub(crate) fn ink_whole(line: &mut [u8], n: u64, first: usize, last: usize)
    requires { (1 ≤ first) × (first ≤ last) }
    ensures { line.new ≡ inked_whole first last (shown_in (whole 0 0) (last - (first - 1)) (one n)) line.old }
{
    ink_in(line, first, last, |part| put_number(part, n));
}

pub(crate) fn ink_decimal(line: &mut [u8], places: usize, m: u64, first: usize, last: usize)
    requires { (1 ≤ first) × (first ≤ last) }
    ensures { line.new ≡ inked_whole first last (shown_in (decimal places 0 0) (last - (first - 1)) (one m)) line.old }
{
    let n = Signed {
        negative: false,
        magnitude: m,
    };
    ink_in(line, first, last, |part| put_places(part, places, n));
}

// A number of 14 columns with a sign: so many in any line, which the compiler makes use of.
pub(crate) fn ink_signed(line: &mut [u8], n: Signed, first: usize, last: usize)
    requires { (1 ≤ first) × (last ≡ first + 13) }
    ensures { line.new ≡ inked_whole first last (shown_in (signed 6) (last - (first - 1)) (amount n.negative n.magnitude)) line.old }
{
    ink_in(line, first, first + 13, |part| put_places(part, 6, n));
}

pub(crate) fn ink_known(line: &mut [u8], n: u64, unknown: u64, first: usize, last: usize)
    requires { (1 ≤ first) × (first ≤ last) }
    ensures { line.new ≡ inked_whole first last (shown_in (maybe unknown) (last - (first - 1)) (one n)) line.old }
{
    ink_in(line, first, last, |part| put_known(part, n, unknown));
}

// A blank column and such a number after it: where the line has all their columns, one test is left of both.
pub(crate) fn ink_spaced(line: &mut [u8], n: u64, unknown: u64, first: usize, last: usize)
    requires { (2 ≤ first) × (first ≤ last) }
    ensures { line.new ≡ inked_whole first last (shown_in (maybe unknown) (last - (first - 1)) (one n)) (inked_whole (first - 1) (first - 1) (blanks 1) line.old) }
{
    let before = first - 1;
    if line.len() < last {
        ink_blank(line, before, before);
        return;
    }
    ink_blank(line, before, before);
    ink_known(line, n, unknown, first, last);
}

// A correlation, of eight columns, in the same way as a number of 14.
pub(crate) fn ink_correlation(line: &mut [u8], n: Signed, first: usize, last: usize)
    requires { (1 ≤ first) × (last ≡ first + 7) }
    ensures { line.new ≡ inked_whole first last (shown_in correlation (last - (first - 1)) (amount n.negative n.magnitude)) line.old }
{
    ink_in(line, first, first + 7, |part| put_correlation(part, n));
}

// A flag's letter where it is set, else a blank.
fn flag_letter(sign: u8, set: bool) -> u8
    ensures { result ≡ cond set sign 32 }
{
    if set { sign } else { b' ' }
}

pub(crate) fn ink_flag(line: &mut [u8], sign: u8, set: bool, at: usize)
    requires { 1 ≤ at }
    ensures { line.new ≡ inked_whole at at (shown_in (flag sign) 1 (mark set)) line.old }
{
    ink_in(line, at, at, |part| part[0] = flag_letter(sign, set));
}

pub(crate) fn ink_identifier(line: &mut [u8], code: u64, first: usize, last: usize)
    requires { (1 ≤ first) × (last ≡ first + 2) }
    ensures { line.new ≡ inked_whole first last (shown_in identifier 3 (one code)) line.old }
{
    ink_in(line, first, last, |part| put_identifier(part, code));
}

// The last column of a field that is shown; else the end of what stands before it.
fn end_if(shown: bool, last: usize, earlier: usize) -> usize
    ensures { result ≡ cond shown last earlier }
{
    if shown { last } else { earlier }
}

// The same of a whole number, by its columns; of a decimal; of a number or a correlation that may be unknown.
#[tactic(auto, using(crate::proofs::Filling::whole_end))]
pub(crate) fn whole_end(n: u64, first: usize, last: usize, earlier: usize) -> usize
    requires { (1 ≤ first) × (first ≤ last) }
    ensures { result ≡ text_end (first - 1) (shown_in (whole 0 0) (last - (first - 1)) (one n)) earlier }
{
    end_if(
        field::write::fits_whole(last - (first - 1), n),
        last,
        earlier,
    )
}

#[tactic(auto, using(crate::proofs::Filling::decimal_end))]
pub(crate) fn decimal_end(places: usize, m: u64, first: usize, last: usize, earlier: usize) -> usize
    requires { (1 ≤ first) × (first ≤ last) }
    ensures { result ≡ text_end (first - 1) (shown_in (decimal places 0 0) (last - (first - 1)) (one m)) earlier }
{
    let shown = field::write::fits_decimal(last - (first - 1), places, false, m);
    end_if(shown, last, earlier)
}

#[tactic(auto, using(crate::proofs::Filling::blank_end))]
pub(crate) fn known_end(n: u64, unknown: u64, first: usize, last: usize, earlier: usize) -> usize
    requires { (1 ≤ first) × (first ≤ last) }
    ensures { result ≡ text_end (first - 1) (shown_in (maybe unknown) (last - (first - 1)) (one n)) earlier }
{
    if n == unknown {
        return earlier;
    }
    whole_end(n, first, last, earlier)
}

#[tactic(auto, using(crate::proofs::Filling::blank_end, crate::proofs::Filling::signed_end))]
pub(crate) fn correlation_end(n: Signed, first: usize, last: usize, earlier: usize) -> usize
    requires { (1 ≤ first) × (first ≤ last) }
    ensures { result ≡ text_end (first - 1) (shown_in correlation (last - (first - 1)) (amount n.negative n.magnitude)) earlier }
{
    if n.magnitude == UNNOTED {
        return earlier;
    }
    let shown = field::write::fits_signed_whole(last - (first - 1), n.negative, n.magnitude);
    end_if(shown, last, earlier)
}

// The last column of a text that is not blank; else the end of what stands before it.
pub(crate) fn text_end(text: &[u8], first: usize, last: usize, earlier: usize) -> usize
    requires { (1 ≤ first) × (first ≤ last) × (last ≤ 80) }
    ensures { result ≡ text_end (first - 1) (shown_text (last - (first - 1)) text.now) earlier }
{
    let from = first - 1;
    let shown = text.len().min(last - from);
    let n = layout::trimmed_length(&text[..shown]);
    if n == 0 {
        return earlier;
    }
    from + n
}
