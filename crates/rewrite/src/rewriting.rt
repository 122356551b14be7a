// A file read, and its table written again.
ghost use Rattle.std.specs.Prelude.{◌≡◌, length};
ghost use Rattle.rewrite.specs.Rewriting.{rewrite_answer, out_rewritten};

use crate::types::Rewritten;
use header::Version;

// Reads a whole file into the lent lists and writes its table, in the version of the file, into `out`: the refusal of the reading with its line and column, else that of the
// writing, with neither. On a refusal `out` is as it was.
pub(crate) fn read_and_write(
    file: &[u8],
    identifiers: &mut [u64],
    exponents: &mut [u64],
    comments: &mut [u8],
    rows: &mut [i64],
    out: &mut [u8],
) -> Rewritten
    ensures result { result ≡ rewrite_answer file.now identifiers.old exponents.old comments.old rows.old (length out.old) }
    ensures lent { out.new ≡ out_rewritten file.now identifiers.old exponents.old comments.old rows.old out.old }
{
    let read = reader::read(file, identifiers, exponents, comments, rows);
    if read.refusal != 0 {
        return Rewritten {
            refusal: read.refusal,
            line: read.line,
            column: read.column,
            length: 0,
        };
    }
    let header = read.header;
    let version = Version::by(read.version);
    let written = writer::write(version, header, identifiers, exponents, comments, rows, out);
    Rewritten {
        refusal: written.refusal,
        line: 0,
        column: 0,
        length: written.length,
    }
}
