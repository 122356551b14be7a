// Reading into lent memory: judge first, then ask for room, then fill.
ghost use Rattle.std.specs.Prelude.{◌≡◌, true, false, map, ◌/◌, length, take};
ghost use Rattle.lines.specs.Lent.{flat};
ghost use Rattle.lines.specs.Lines.{lines_of};
ghost use Rattle.header.specs.Versions.{rules_in};
ghost use Rattle.record.specs.LineKinds.{comment_kind};
ghost use Rattle.record.specs.Rows.{row_width};
ghost use Rattle.file.specs.Kinds.{of_kind};
ghost use Rattle.file.specs.Table.{slots_in, comment_text, rows_of_lines};
ghost use Rattle.reader.specs.Reading.{front_of, file_of, Accounted, room_for, filled, read_answer, identifiers_after, exponents_after, comments_after, rows_after};

use crate::judging;
use crate::types::Reading;
use header::Rules;
use record::plain::COMMENT_WIDTH;
use record::rows::ROW_WIDTH;
use scan::{Refusal, Tally};

// Whether so much room is enough: whole comments and whole rows count.
fn has_room(n: u64, tally: Tally, i: usize, x: usize, c: usize, r: usize) -> bool
    ensures { result ≡ room_for n tally i x c r }
{
    ((n <= i as u64) & (n <= x as u64))
        & ((tally.comments <= (c / COMMENT_WIDTH) as u64) & (tally.rows <= (r / ROW_WIDTH) as u64))
}

// Fills each list with what fits of a file's n satellites, so many comments and rows, where there is room enough; else leaves it as it was.
fn fill_lists(
    enough: bool,
    rules: Rules,
    bytes: &[u8],
    n: u64,
    count: u64,
    identifiers: &mut [u64],
    exponents: &mut [u64],
    comments: &mut [u8],
    rows: &mut [i64],
)
    ensures identifiers_after { identifiers.new ≡ filled enough (take (length identifiers.old) (slots_in rules false n (lines_of bytes.now))) identifiers.old }
    ensures exponents_after { exponents.new ≡ filled enough (take (length exponents.old) (slots_in rules true n (lines_of bytes.now))) exponents.old }
    ensures comments_after { comments.new ≡ filled enough (take (length comments.old) (flat (map comment_text (take count (of_kind rules comment_kind (lines_of bytes.now)))))) comments.old }
    ensures rows_after { rows.new ≡ filled enough (flat (take (length rows.old / row_width) (rows_of_lines rules (lines_of bytes.now)))) rows.old }
{
    if !enough {
        return;
    }
    fill::fill_slots(rules, bytes, false, n, identifiers);
    fill::fill_slots(rules, bytes, true, n, exponents);
    fill::fill_comments(rules, bytes, count, comments);
    fill::fill_rows(rules, bytes, rows);
}

// Fills the lists from a file that was judged, where they have room.
fn deliver(
    rules: Rules,
    bytes: &[u8],
    found: Result<Tally, Refusal>,
    identifiers: &mut [u64],
    exponents: &mut [u64],
    comments: &mut [u8],
    rows: &mut [i64],
) -> Reading
    requires { Accounted rules bytes.now found }
    ensures value { result ≡ read_answer rules bytes.now found identifiers.old exponents.old comments.old rows.old }
    ensures identifiers_after { identifiers.new ≡ identifiers_after rules bytes.now found identifiers.old exponents.old comments.old rows.old }
    ensures exponents_after { exponents.new ≡ exponents_after rules bytes.now found identifiers.old exponents.old comments.old rows.old }
    ensures comments_after { comments.new ≡ comments_after rules bytes.now found identifiers.old exponents.old comments.old rows.old }
    ensures rows_after { rows.new ≡ rows_after rules bytes.now found identifiers.old exponents.old comments.old rows.old }
{
    match found {
        Err(refusal) => judging::refused(refusal.number, refusal.line, refusal.column),
        Ok(tally) => {
            let end = tally.end;
            let used = &bytes[0..end];
            let n = file::count_of(rules, used);
            let enough = has_room(
                n,
                tally,
                identifiers.len(),
                exponents.len(),
                comments.len(),
                rows.len(),
            );
            fill_lists(
                enough,
                rules,
                used,
                n,
                tally.comments,
                identifiers,
                exponents,
                comments,
                rows,
            );
            if !enough {
                return judging::refused(12, 0, 0);
            }
            judging::answer(rules, bytes, found)
        }
    }
}

// Reads one whole file: identifiers, exponents, comments (77 bytes each, filled up with blanks) and rows (ROW_WIDTH numbers each) into the first places
// of the lent lists. Too little room anywhere is 12 with line 0; on every refusal the lists are as they were.
pub fn read(
    file: &[u8],
    identifiers: &mut [u64],
    exponents: &mut [u64],
    comments: &mut [u8],
    rows: &mut [i64],
) -> Reading
    ensures result { result ≡ read_answer (rules_in file.now) file.now (file_of (rules_in file.now) file.now) identifiers.old exponents.old comments.old rows.old }
    ensures identifiers { identifiers.new ≡ identifiers_after (rules_in file.now) file.now (file_of (rules_in file.now) file.now) identifiers.old exponents.old comments.old rows.old }
    ensures exponents { exponents.new ≡ exponents_after (rules_in file.now) file.now (file_of (rules_in file.now) file.now) identifiers.old exponents.old comments.old rows.old }
    ensures comments { comments.new ≡ comments_after (rules_in file.now) file.now (file_of (rules_in file.now) file.now) identifiers.old exponents.old comments.old rows.old }
    ensures rows { rows.new ≡ rows_after (rules_in file.now) file.now (file_of (rules_in file.now) file.now) identifiers.old exponents.old comments.old rows.old }
{
    let rules = Rules::told_by(file);
    let found = judging::found_in(true, rules, file);
    deliver(rules, file, found, identifiers, exponents, comments, rows)
}

// The same for one file at the front of a stretch, whose length is told.
pub fn read_front(
    stretch: &[u8],
    identifiers: &mut [u64],
    exponents: &mut [u64],
    comments: &mut [u8],
    rows: &mut [i64],
) -> Reading
    ensures result { result ≡ read_answer (rules_in stretch.now) stretch.now (front_of (rules_in stretch.now) stretch.now) identifiers.old exponents.old comments.old rows.old }
    ensures identifiers { identifiers.new ≡ identifiers_after (rules_in stretch.now) stretch.now (front_of (rules_in stretch.now) stretch.now) identifiers.old exponents.old comments.old rows.old }
    ensures exponents { exponents.new ≡ exponents_after (rules_in stretch.now) stretch.now (front_of (rules_in stretch.now) stretch.now) identifiers.old exponents.old comments.old rows.old }
    ensures comments { comments.new ≡ comments_after (rules_in stretch.now) stretch.now (front_of (rules_in stretch.now) stretch.now) identifiers.old exponents.old comments.old rows.old }
    ensures rows { rows.new ≡ rows_after (rules_in stretch.now) stretch.now (front_of (rules_in stretch.now) stretch.now) identifiers.old exponents.old comments.old rows.old }
{
    let rules = Rules::told_by(stretch);
    let found = judging::found_in(false, rules, stretch);
    deliver(
        rules,
        stretch,
        found,
        identifiers,
        exponents,
        comments,
        rows,
    )
}
