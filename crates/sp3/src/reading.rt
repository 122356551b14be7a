// Files judged, read, written and divided.
ghost use Rattle.std.specs.Prelude.{◌≡◌, length};
ghost use Rattle.header.specs.Rules.{c, d};
ghost use Rattle.header.specs.Versions.{rules_in};
ghost use Rattle.reader.specs.Reading.{file_of, front_of, judged, read_answer, identifiers_after, exponents_after, comments_after, rows_after};
ghost use Rattle.canon.specs.Table.{table_of};
ghost use Rattle.canon.specs.Measured.{measured_in};
ghost use Rattle.writer.specs.Writing.{out_after};
ghost use Rattle.divide.specs.Dividing.{divide_of, lengths_after};

use canon::Measured;
use divide::Division;
use header::{Header, Version};
use reader::Reading;

// One whole file judged, with no room lent.
pub fn sp3_judge(file: &[u8]) -> Reading
    ensures result { result ≡ judged (rules_in file.now) file.now (file_of (rules_in file.now) file.now) }
{
    reader::judge(file)
}

// The file at the front of a stretch judged.
pub fn sp3_judge_front(stretch: &[u8]) -> Reading
    ensures result { result ≡ judged (rules_in stretch.now) stretch.now (front_of (rules_in stretch.now) stretch.now) }
{
    reader::judge_front(stretch)
}

// One whole file read into lent lists.
pub fn sp3_read(
    file: &[u8],
    identifiers: &mut [u64],
    exponents: &mut [u64],
    comments: &mut [u8],
    rows: &mut [i64],
) -> Reading
    ensures result { result ≡ read_answer (rules_in file.now) file.now (file_of (rules_in file.now) file.now) identifiers.old exponents.old comments.old rows.old }
    ensures identifiers { identifiers.new ≡ identifiers_after (rules_in file.now) file.now (file_of (rules_in file.now) file.now) identifiers.old exponents.old comments.old rows.old }
    ensures exponents { exponents.new ≡ exponents_after (rules_in file.now) file.now (file_of (rules_in file.now) file.now) identifiers.old exponents.old comments.old rows.old }
    ensures comments { comments.new ≡ comments_after (rules_in file.now) file.now (file_of (rules_in file.now) file.now) identifiers.old exponents.old comments.old rows.old }
    ensures rows { rows.new ≡ rows_after (rules_in file.now) file.now (file_of (rules_in file.now) file.now) identifiers.old exponents.old comments.old rows.old }
{
    reader::read(file, identifiers, exponents, comments, rows)
}

// The file at the front of a stretch read into lent lists.
pub fn sp3_read_front(
    stretch: &[u8],
    identifiers: &mut [u64],
    exponents: &mut [u64],
    comments: &mut [u8],
    rows: &mut [i64],
) -> Reading
    ensures result { result ≡ read_answer (rules_in stretch.now) stretch.now (front_of (rules_in stretch.now) stretch.now) identifiers.old exponents.old comments.old rows.old }
    ensures identifiers { identifiers.new ≡ identifiers_after (rules_in stretch.now) stretch.now (front_of (rules_in stretch.now) stretch.now) identifiers.old exponents.old comments.old rows.old }
    ensures exponents { exponents.new ≡ exponents_after (rules_in stretch.now) stretch.now (front_of (rules_in stretch.now) stretch.now) identifiers.old exponents.old comments.old rows.old }
    ensures comments { comments.new ≡ comments_after (rules_in stretch.now) stretch.now (front_of (rules_in stretch.now) stretch.now) identifiers.old exponents.old comments.old rows.old }
    ensures rows { rows.new ≡ rows_after (rules_in stretch.now) stretch.now (front_of (rules_in stretch.now) stretch.now) identifiers.old exponents.old comments.old rows.old }
{
    reader::read_front(stretch, identifiers, exponents, comments, rows)
}

// The canonical form of a table in SP3-d written into lent output.
pub fn sp3_write(
    header: Header,
    identifiers: &[u64],
    exponents: &[u64],
    comments: &[u8],
    rows: &[i64],
    out: &mut [u8],
) -> Measured
    ensures result { result ≡ measured_in d (table_of header identifiers.now exponents.now comments.now rows.now) (length out.old) }
    ensures lent { out.new ≡ out_after d (table_of header identifiers.now exponents.now comments.now rows.now) out.old }
{
    writer::write(
        Version::D,
        header,
        identifiers,
        exponents,
        comments,
        rows,
        out,
    )
}

// How long that form is.
pub fn sp3_form_length(
    header: Header,
    identifiers: &[u64],
    exponents: &[u64],
    comments: &[u8],
    rows: &[i64],
) -> Measured
    ensures result { result ≡ measured_in d (table_of header identifiers.now exponents.now comments.now rows.now) 9_223_372_036_854_775_807 }
{
    canon::form_length(Version::D, header, identifiers, exponents, comments, rows)
}

// The same in SP3-c: 17 for a table outside its bounds.
pub fn sp3_write_c(
    header: Header,
    identifiers: &[u64],
    exponents: &[u64],
    comments: &[u8],
    rows: &[i64],
    out: &mut [u8],
) -> Measured
    ensures result { result ≡ measured_in c (table_of header identifiers.now exponents.now comments.now rows.now) (length out.old) }
    ensures lent { out.new ≡ out_after c (table_of header identifiers.now exponents.now comments.now rows.now) out.old }
{
    writer::write(
        Version::C,
        header,
        identifiers,
        exponents,
        comments,
        rows,
        out,
    )
}

// How long that form is.
pub fn sp3_form_length_c(
    header: Header,
    identifiers: &[u64],
    exponents: &[u64],
    comments: &[u8],
    rows: &[i64],
) -> Measured
    ensures result { result ≡ measured_in c (table_of header identifiers.now exponents.now comments.now rows.now) 9_223_372_036_854_775_807 }
{
    canon::form_length(Version::C, header, identifiers, exponents, comments, rows)
}

// A stretch divided into the accepted files at its front.
pub fn sp3_divide(stretch: &[u8], lengths: &mut [u64]) -> Division
    ensures result { result ≡ divide_of stretch.now (length lengths.old) }
    ensures lent { lengths.new ≡ lengths_after stretch.now lengths.old }
{
    divide::divide(stretch, lengths)
}
