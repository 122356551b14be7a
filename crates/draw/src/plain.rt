// Comments and the end of the file, written.
ghost use Rattle.std.specs.Prelude.{◌≡◌, [], ◌∷◌, ◌++◌, ◌≤◌, length};
ghost use Rattle.layout.specs.Kind.Held.{words};
ghost use Rattle.layout.specs.Inking.{inked};
ghost use Rattle.layout.specs.Line.{Lays};
ghost use Rattle.record.specs.Descriptors.{fixed_line};
ghost use Rattle.record.specs.Plain.{comment_items, comment_line, end_items};

use crate::columns;
use crate::ended::lay_ended;

// A comment of this text in the bytes up to its line's end.
fn put_comment(line: &mut [u8], text: &[u8])
    ensures { line.new ≡ inked comment_items (words text.now ∷ []) line.old }
{
    columns::ink_fixed(line, b"/*", 1, 2);
    columns::ink_blank(line, 3, 3);
    columns::ink_text(line, text, 4, 80);
}

// A comment of this text laid at the front of `out`, where there is room, and its length in any case.
pub fn write_comment(text: &[u8], out: &mut [u8]) -> usize
    ensures lays { Lays (comment_line text.now) out.old result out.new }
{
    let end = columns::text_end(text, 4, 80, 2);
    lay_ended(end, out, |line| put_comment(line, text))
}

// The same of a line that is always the same, of up to 80 columns of which the last is not blank.
pub(crate) fn write_same(line: &[u8], out: &mut [u8]) -> usize
    requires { length line.now ≤ 80 }
    ensures { Lays (line.now ++ (10 ∷ [])) out.old result out.new }
{
    lay_ended(line.len(), out, |part| part.copy_from_slice(line))
}

// The same of the end of the file.
#[tactic(auto, unfolding(record::specs::Descriptors::fixed_line))]
pub fn write_end(out: &mut [u8]) -> usize
    ensures lays { Lays (fixed_line end_items) out.old result out.new }
{
    write_same(b"EOF", out)
}
