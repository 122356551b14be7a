// The whole answer, laid into the lent output.
ghost use Rattle.std.specs.Prelude.{◌≡◌, length, take, ◌≤◌};
ghost use Rattle.header.specs.Versions.{rules_in};
ghost use Rattle.reader.specs.Reading.{file_of};
ghost use Rattle.layout.specs.Line.{Lays};
ghost use Rattle.rewrite.specs.Printed.{answered, printed, most_bytes};
ghost use Rattle.io.specs.Counts.{IsPrefixLen};

use crate::{rewriting, text};
use header::Header;
use record::plain::COMMENT_WIDTH;
use record::rows::ROW_WIDTH;

// The most bytes of input, and of output.
const LONGEST: usize = 65_536;

// The most comments and rows that room is lent for.
const MOST_COMMENTS: usize = 800;

const MOST_ROWS: usize = 1_191;

// The canonical form of a file of at most 65,536 bytes, or its refusal as a line. Room is lent for all its satellites, for 800 comments and for 1,191 rows:
// a row has at least 55 bytes, so there are no more. The form may be longer than the file, and than the output: that is 12 too.
fn answer_short(file: &[u8], out: &mut [u8]) -> usize
    requires file_len_bound { length file.now ≤ most_bytes }
    requires out_len { length out.old ≡ most_bytes }
    ensures { Lays (answered file.now (file_of (rules_in file.now) file.now)) out.old result out.new }
{
    let mut identifiers = [0u64; Header::MAX_SATELLITES as usize];
    let mut exponents = [0u64; Header::MAX_SATELLITES as usize];
    let mut comments = [0u8; MOST_COMMENTS * COMMENT_WIDTH];
    let mut rows = [0i64; MOST_ROWS * ROW_WIDTH];
    let done = rewriting::read_and_write(
        file,
        &mut identifiers,
        &mut exponents,
        &mut comments,
        &mut rows,
        out,
    );
    if done.refusal != 0 {
        return text::put_refusal(done.refusal, done.line, done.column, out);
    }
    done.length
}

// What is printed for the bytes of standard input, of which the first 65,537 are enough, and how many bytes it has.
pub(crate) fn answer(file: &[u8], out: &mut [u8]) -> usize
    requires { length out.old ≡ most_bytes }
    ensures result { take result out.new ≡ printed file.now }
    ensures within { IsPrefixLen result out.new }
{
    if file.len() > LONGEST {
        return text::put_bytes(b"too long\n", out);
    }
    answer_short(file, out)
}
