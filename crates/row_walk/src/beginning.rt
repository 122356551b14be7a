// Before a walk: the file judged whole, and the identifiers of its header.
ghost use Rattle.std.specs.Prelude.{◌≡◌, length};
ghost use Rattle.header.specs.Versions.{rules_in};
ghost use Rattle.reader.specs.Reading.{refused_with, file_of, judged};
ghost use Rattle.row_walk.specs.Begin.{begun_as, identifiers_begun};

use header::{Header, Rules};
use reader::Reading;

// Too little room, beside nothing.
fn no_room() -> Reading
    ensures { result ≡ refused_with 12 0 0 }
{
    Reading {
        refusal: 12,
        line: 0,
        column: 0,
        length: 0,
        header: Header::none(),
        version: b' ',
    }
}

// Judges a whole file and leaves the identifiers of its header in the first places of `identifiers`: the file's own refusal first, then 12 with
// line 0 where there is less room than satellites. On every refusal the list is as it was.
pub fn begin(file: &[u8], identifiers: &mut [u64]) -> Reading
    ensures result { result ≡ begun_as (judged (rules_in file.now) file.now (file_of (rules_in file.now) file.now)) (length identifiers.old) }
    ensures lent { identifiers.new ≡ identifiers_begun (rules_in file.now) (judged (rules_in file.now) file.now (file_of (rules_in file.now) file.now)) file.now identifiers.old }
{
    let reading = reader::judge(file);
    if reading.refusal != 0 {
        return reading;
    }
    let header = reading.header;
    let n = header.satellites;
    let room = identifiers.len() as u64;
    if room < n {
        return no_room();
    }
    fill::fill_slots(Rules::told_by(file), file, false, n, identifiers);
    reading
}
