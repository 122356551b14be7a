// The records of a file that stand at its head, read from their lines.
ghost use Rattle.std.specs.Prelude.{◌≡◌};
ghost use Rattle.lines.specs.Lines.{lines_of};
ghost use Rattle.file.specs.Table.{padded_first, first_in, count_of};

use header::Rules;
use record::First;
use record::kind::{FIRST_KIND, SATELLITES_KIND};

// The first line of a kind, padded to 80 columns.
pub fn padded_line(rules: Rules, bytes: &[u8], kind: u64) -> [u8; 80]
    ensures result { result ≡ padded_first rules kind (lines_of bytes.now) }
{
    layout::pad(crate::line_of(rules, bytes, kind, 0))
}

// The number of satellites that the first `+ ` line says.
pub fn count_of(rules: Rules, bytes: &[u8]) -> u64
    ensures result { result ≡ count_of rules (lines_of bytes.now) }
{
    let line = padded_line(rules, bytes, SATELLITES_KIND);
    let satellites = record::slots::read_satellites(rules, &line);
    satellites.count
}

// Line 1 of a file.
pub fn first_of(rules: Rules, bytes: &[u8]) -> First
    ensures result { result ≡ first_in rules (lines_of bytes.now) }
{
    let line = padded_line(rules, bytes, FIRST_KIND);
    record::opening::read_first(rules, &line)
}
