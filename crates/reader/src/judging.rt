// Judging: the answer about one file, with no room lent.
ghost use Rattle.std.specs.Prelude.{◌≡◌, cond};
ghost use Rattle.lines.specs.Lines.{lines_of};
ghost use Rattle.header.specs.Versions.{rules_in};
ghost use Rattle.file.specs.Table.{header_with};
ghost use Rattle.reader.specs.Reading.{refused_with, judged, front_of, file_of, Accounted};

use crate::types::Reading;
use header::{Header, Rules};
use record::kind::{CHARACTERS_KIND, FLOATS_KIND, SECOND_KIND};
use scan::{Refusal, Tally};

// A refusal beside nothing.
pub(crate) fn refused(number: usize, line: u64, column: usize) -> Reading
    ensures { result ≡ refused_with number line column }
{
    Reading {
        refusal: number,
        line,
        column,
        length: 0,
        header: Header::none(),
        version: b' ',
    }
}

// The header that the lines of a file hold, of which so many are comments.
fn header_of(rules: Rules, bytes: &[u8], comments: u64) -> Header
    ensures { result ≡ header_with rules (lines_of bytes.now) comments }
{
    let first = file::first_of(rules, bytes);
    let texts = first.texts;
    let start = first.start;
    let second_line = file::padded_line(rules, bytes, SECOND_KIND);
    let second = record::opening::read_second(&second_line);
    let descriptor_line = file::padded_line(rules, bytes, CHARACTERS_KIND);
    let descriptor = record::descriptors::read_descriptor(&descriptor_line);
    let time_system = descriptor.time_system;
    let base_line = file::padded_line(rules, bytes, FLOATS_KIND);
    let based = record::descriptors::read_bases(&base_line);
    let bases = based.bases;
    Header::of(
        first.mode,
        machine::instant_in(start),
        first.epochs,
        second.interval8,
        texts,
        file::count_of(rules, bytes),
        comments,
        descriptor.file_type,
        time_system,
        bases,
    )
}

// What is found in some bytes: one whole file, or one at their front.
pub(crate) fn found_in(whole: bool, rules: Rules, bytes: &[u8]) -> Result<Tally, Refusal>
    ensures value { result ≡ cond whole (file_of rules bytes.now) (front_of rules bytes.now) }
    ensures accounted { Accounted rules bytes.now result }
{
    if whole {
        return scan::scan_whole(rules, bytes);
    }
    scan::scan_front(rules, bytes)
}

// What was found at the front of some bytes, as an answer.
pub(crate) fn answer(rules: Rules, bytes: &[u8], found: Result<Tally, Refusal>) -> Reading
    requires { Accounted rules bytes.now found }
    ensures { result ≡ judged rules bytes.now found }
{
    match found {
        Err(refusal) => refused(refusal.number, refusal.line, refusal.column),
        Ok(tally) => {
            let end = tally.end;
            Reading {
                refusal: 0,
                line: 0,
                column: 0,
                length: end,
                header: header_of(rules, &bytes[0..end], tally.comments),
                version: rules.letter,
            }
        }
    }
}

// One whole file: 0, its header and its length, or the first refusal with its line. No bytes are 1 at line 1.
pub fn judge(file: &[u8]) -> Reading
    ensures result { result ≡ judged (rules_in file.now) file.now (file_of (rules_in file.now) file.now) }
{
    let rules = Rules::told_by(file);
    answer(rules, file, found_in(true, rules, file))
}

// One file at the front of a stretch: 11 never occurs.
pub fn judge_front(stretch: &[u8]) -> Reading
    ensures result { result ≡ judged (rules_in stretch.now) stretch.now (front_of (rules_in stretch.now) stretch.now) }
{
    let rules = Rules::told_by(stretch);
    answer(rules, stretch, found_in(false, rules, stretch))
}
