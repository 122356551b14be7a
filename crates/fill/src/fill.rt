// Filling lent memory from a file that was judged: each list from its first place on, in one walk over the lines that it needs.
ghost use Rattle.std.specs.Prelude.{◌≡◌, map, ◌/◌, length, take};
ghost use Rattle.lines.specs.Lent.{laid, over, flat};
ghost use Rattle.lines.specs.Lines.{lines_of};
ghost use Rattle.record.specs.LineKinds.{comment_kind};
ghost use Rattle.record.specs.Rows.{row_width};
ghost use Rattle.file.specs.Kinds.{of_kind};
ghost use Rattle.file.specs.Table.{slot_numbers, slots_in, comment_text, rows_of_lines};

use crate::rows;
use header::Rules;
use record::kind::{ACCURACIES_KIND, COMMENT_KIND, POSITION_KIND, SATELLITES_KIND, VELOCITY_KIND};
use record::plain::COMMENT_WIDTH;
use record::rows::ROW_WIDTH;

// The numbers in the slots of a `+ ` line, or of a `++` line where `accuracies` says so, laid over the front of `out`, at most so many.
fn lay_slots(line: &[u8], accuracies: bool, left: u64, out: &mut [u64])
    ensures { out.new ≡ laid (take left (slot_numbers accuracies line.now)) out.old }
{
    let padded = layout::pad(line);
    let slots = record::slots::read_slots(&padded, accuracies, 17);
    let count = left.min(17) as usize;
    lines::lay_numbers(out, &slots.values[..count]);
}

// The identifiers of n satellites, or their exponents where `accuracies` says so.
pub fn fill_slots(rules: Rules, bytes: &[u8], accuracies: bool, n: u64, out: &mut [u64])
    ensures lent { out.new ≡ laid (slots_in rules accuracies n (lines_of bytes.now)) out.old }
{
    let kind = if accuracies {
        ACCURACIES_KIND
    } else {
        SATELLITES_KIND
    };
    let mut stored: usize = 0;
    let mut left = n;
    for line in file::complete_lines(bytes) {
        if file::kind_in(rules, line) == kind {
            lay_slots(line, accuracies, left, &mut out[stored..]);
            if (left <= 17) | (out.len() - stored <= 17) {
                return;
            }
            left -= 17;
            stored += 17;
        }
    }
}

// The text of a comment laid over the front of `out`.
fn lay_comment(line: &[u8], out: &mut [u8])
    ensures { out.new ≡ laid (comment_text line.now) out.old }
{
    let padded = layout::pad(line);
    layout::copy_front(out, &padded[3..80]);
}

// The first comments, so many of them.
pub fn fill_comments(rules: Rules, bytes: &[u8], count: u64, out: &mut [u8])
    ensures lent { out.new ≡ laid (flat (map comment_text (take count (of_kind rules comment_kind (lines_of bytes.now))))) out.old }
{
    if count == 0 {
        return;
    }
    let mut stored: usize = 0;
    let mut left = count;
    for line in file::complete_lines(bytes) {
        if file::kind_in(rules, line) == COMMENT_KIND {
            lay_comment(line, &mut out[stored..]);
            if (left <= 1) | (out.len() - stored <= COMMENT_WIDTH) {
                return;
            }
            left -= 1;
            stored += COMMENT_WIDTH;
        }
    }
}

// The rows, as many whole ones as there is room for, twenty-three numbers each.
pub fn fill_rows(rules: Rules, bytes: &[u8], out: &mut [i64])
    ensures lent { out.new ≡ over (flat (take (length out.old / row_width) (rows_of_lines rules (lines_of bytes.now)))) out.old }
{
    let mut behind: usize = 0;
    let mut stored: usize = 0;
    for line in file::complete_lines(bytes) {
        behind += line.len() + 1;
        let kind = file::kind_in(rules, line);
        if (kind == POSITION_KIND) | (kind == VELOCITY_KIND) {
            let width = ROW_WIDTH;
            if out.len() - stored < width {
                return;
            }
            let row = record::rows::row_of(line, kind == VELOCITY_KIND);
            rows::store_noted(row, bytes, behind, &mut out[stored..]);
            stored += ROW_WIDTH;
        }
    }
}
