// Rows of one whole file, asked for by epoch and satellite: the file's own refusal first, then 13 with line 0.
ghost use Rattle.std.specs.Prelude.{◌≡◌, ◌≤◌};
ghost use Rattle.lines.specs.Lines.{lines_of};
ghost use Rattle.header.specs.Rules.{max_satellites, max_epochs};
ghost use Rattle.header.specs.Versions.{rules_in};
ghost use Rattle.file.specs.Table.{count_of};
ghost use Rattle.reader.specs.Reading.{file_of};
ghost use Rattle.questions.specs.Questions.{epochs_of, no_row, row_at, row_begins, row_answer};

use crate::types::{RowAnswer, RowBegins};
use header::Rules;
use record::kind::POSITION_KIND;

// A refusal beside no row.
fn no_row(number: usize, line: u64, column: usize) -> RowBegins
    ensures { result ≡ no_row number line column }
{
    RowBegins {
        refusal: number,
        line,
        column,
        at: 0,
    }
}

// Where the P line of an epoch and a satellite begins among some lines.
fn row_at(rules: Rules, bytes: &[u8], epoch: u64, satellite: u64) -> RowBegins
    requires { (epochs_of rules (lines_of bytes.now) ≤ max_epochs) × (count_of rules (lines_of bytes.now) ≤ max_satellites) }
    ensures { result ≡ row_at rules (lines_of bytes.now) epoch satellite }
{
    let first = file::first_of(rules, bytes);
    let n = file::count_of(rules, bytes);
    if (epoch < first.epochs) & (satellite < n) {
        return RowBegins {
            refusal: 0,
            line: 0,
            column: 0,
            at: file::line_begins(rules, bytes, POSITION_KIND, epoch * n + satellite),
        };
    }
    no_row(13, 0, 0)
}

// Where the P line of an epoch and a satellite begins in a file, each counted from 0, in mode V too: 13 where it has no such row.
pub fn row_begins(file: &[u8], epoch: u64, satellite: u64) -> RowBegins
    ensures result { result ≡ row_begins (rules_in file.now) file.now (file_of (rules_in file.now) file.now) epoch satellite }
{
    let rules = Rules::told_by(file);
    match scan::scan_whole(rules, file) {
        Err(refusal) => no_row(refusal.number, refusal.line, refusal.column),
        Ok(tally) => {
            let end = tally.end;
            row_at(rules, &file[0..end], epoch, satellite)
        }
    }
}

// The P row of an epoch and a satellite of a file as floats: the file's own refusal, then 13 with line 0 where it has no such row.
pub fn row(file: &[u8], epoch: u64, satellite: u64) -> RowAnswer
    ensures result { result ≡ row_answer file.now (row_begins (rules_in file.now) file.now (file_of (rules_in file.now) file.now) epoch satellite) }
{
    let found = row_begins(file, epoch, satellite);
    if found.refusal != 0 {
        return RowAnswer {
            refusal: found.refusal,
            line: found.line,
            column: found.column,
            row: float_row::absent_row(),
        };
    }
    let line = file::line_at(file, found.at);
    RowAnswer {
        refusal: 0,
        line: 0,
        column: 0,
        row: float_row::float_row(record::rows::row_of(line, false)),
    }
}
