// The lines of a file by their kind: which kind a line is, and where the k-th line of a kind begins.
#![tactic(auto)]

ghost use Rattle.std.specs.Prelude.{◌≡◌, [], min, length, get_or, drop};
ghost use Rattle.laws.specs.Places.{byte_of};
ghost use Rattle.lines.specs.Lines.{lines_of, nth, begins_from};
ghost use Rattle.file.specs.Kinds.{kind_in, is_kind, of_kind};

use header::Rules;
use record::LineKind;

mod complete;
mod records;

pub use complete::{CompleteLines, complete_lines};
pub use records::{count_of, first_of, padded_line};

// The byte in a column, counted from 0, a blank where the line is shorter.
fn byte_at(line: &[u8], i: usize) -> u8
    ensures { result ≡ get_or line.now i 32 }
{
    line.get(i).copied().unwrap_or(b' ')
}

// The number of a line's kind, 1 for `#d` to 14 for EOF, and 0 for none: 10 of `PG07`.
pub fn kind_in(rules: Rules, line: &[u8]) -> u64
    ensures result { result ≡ kind_in rules line.now }
{
    let kind = record::kind::kind_by(
        rules.letter,
        byte_at(line, 0),
        byte_at(line, 1),
        byte_at(line, 2),
    );
    machine::kind_number(kind)
}

// Where the k-th line of a kind begins, counted from 0; where there is none, the byte after the last complete line.
pub fn line_begins(rules: Rules, bytes: &[u8], kind: u64, k: u64) -> usize
    ensures result { result ≡ begins_from (is_kind rules kind) k 0 (lines_of bytes.now) }
{
    let mut at: usize = 0;
    let mut left = k;
    for line in complete_lines(bytes) {
        if kind_in(rules, line) == kind {
            if left == 0 {
                return at;
            }
            left -= 1;
        }
        at += line.len() + 1;
    }
    at
}

// No bytes, at a byte of some, or at their end where they are fewer.
pub fn nothing_at(bytes: &[u8], at: usize) -> &[u8]
    ensures result { result.now ≡ [] }
    ensures lies { result.ref_ptr ≡ byte_of bytes.entry (min at (length bytes.now)) }
{
    let here = at.min(bytes.len());
    &bytes[here..here]
}

// The line of some bytes that begins at a byte, without its LF; nothing where there is no line. It lies there, or at the end of the bytes.
pub fn line_at(bytes: &[u8], at: usize) -> &[u8]
    ensures result { result.now ≡ nth 0 (lines_of (drop at bytes.now)) }
    ensures lies { result.ref_ptr ≡ byte_of bytes.entry (min at (length bytes.now)) }
{
    let end = lines::line_end(bytes, at);
    if bytes.len() <= end {
        return nothing_at(bytes, at);
    }
    &bytes[at..end]
}

// The k-th line of a kind, without its LF; nothing where there is none. It lies where `line_begins` says.
pub fn line_of(rules: Rules, bytes: &[u8], kind: u64, k: u64) -> &[u8]
    ensures result { result.now ≡ nth k (of_kind rules kind (lines_of bytes.now)) }
    ensures lies { result.ref_ptr ≡ byte_of bytes.entry (begins_from (is_kind rules kind) k 0 (lines_of bytes.now)) }
{
    let at = line_begins(rules, bytes, kind, k);
    line_at(bytes, at)
}
