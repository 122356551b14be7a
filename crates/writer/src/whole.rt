// A whole table written.
ghost use Rattle.std.specs.Prelude.{◌≡◌, true, ◌≤◌, length};
ghost use Rattle.layout.specs.Line.{Lays};
ghost use Rattle.lines.specs.Lent.{over, flat};
ghost use Rattle.header.specs.Versions.{rules_of};
ghost use Rattle.canon.specs.Table.{table_of};
ghost use Rattle.canon.specs.Valid.{is_instant, valid};
ghost use Rattle.canon.specs.Canonical.{lines_before, canonical};
ghost use Rattle.canon.specs.Measured.{measured_in};
ghost use Rattle.canon.specs.Spent.{lent_table};
ghost use Rattle.writer.specs.Writing.{out_after};

use crate::{epochs, heads};
use canon::{Measured, Table};
use header::{Header, Rules, Version};
use record::plain::COMMENT_WIDTH;

// The lines before the comments.
fn put_opening(
    rules: Rules,
    h: Header,
    identifiers: &[u64],
    exponents: &[u64],
    out: &mut [u8],
) -> usize
    requires start8_value { is_instant h.start8 ≡ true }
    requires exponents_in_bounds { length (flat (lines_before rules h identifiers.now exponents.now)) ≤ length out.old }
    ensures { Lays (flat (lines_before rules h identifiers.now exponents.now)) out.old result out.new }
{
    let lines = header::slot_lines(h.satellites);
    let mut at = heads::put_first(rules, h, identifiers, out);
    let first = laws::fewer(17, identifiers.len());
    at += heads::put_slots(false, lines - 1, &identifiers[first..], &mut out[at..]);
    at += heads::put_slots(true, lines, exponents, &mut out[at..]);
    at + heads::put_descriptors(h, &mut out[at..])
}

// The whole form of a valid table, where there is room.
fn put_table(rules: Rules, table: Table, out: &mut [u8])
    requires table_value { valid rules (lent_table table) ≡ true }
    requires table_in_bounds { length (canonical rules (lent_table table)) ≤ length out.old }
    ensures { out.new ≡ over (canonical rules (lent_table table.entry)) out.old }
{
    let h = table.header;
    let n = h.satellites as usize;
    let identifiers = &table.identifiers[..n];
    let comments = &table.comments[..h.comments as usize * COMMENT_WIDTH];
    let rows = &table.rows[..n * (h.epochs as usize) * canon::cell_width(h.velocity)];
    let mut at = put_opening(rules, h, identifiers, &table.exponents[..n], out);
    at += heads::put_comments(h.comments, comments, &mut out[at..]);
    at += epochs::put_epochs(h, identifiers, rows, &mut out[at..]);
    draw::plain::write_end(&mut out[at..]);
}

// Writes the canonical form of a table in a version into the first bytes of `out` and gives its length: 13 where the table is not valid, a list shorter
// than its count too, then 17 where it is outside the bounds of the version, then 12 where `out` is too short; on a refusal `out` is as it was. Places of the lists past the counts are not looked at.
pub fn write(
    version: Version,
    h: Header,
    identifiers: &[u64],
    exponents: &[u64],
    comments: &[u8],
    rows: &[i64],
    out: &mut [u8],
) -> Measured
    ensures result { result ≡ measured_in (rules_of version) (table_of h identifiers.now exponents.now comments.now rows.now) (length out.old) }
    ensures lent { out.new ≡ out_after (rules_of version) (table_of h identifiers.now exponents.now comments.now rows.now) out.old }
{
    let answer = canon::measure(version, h, identifiers, exponents, comments, rows, out);
    if answer.refusal != 0 {
        return answer;
    }
    let table = Table {
        header: h,
        identifiers,
        exponents,
        comments,
        rows,
    };
    put_table(Rules::of(version), table, out);
    answer
}
