// Questions: for a comment, a satellite, a row of a file; for a date; for a header.
ghost use Rattle.std.specs.Prelude.{◌≡◌};
ghost use Rattle.header.specs.Versions.{rules_in};
ghost use Rattle.header.specs.Header.{header_of};
ghost use Rattle.calendar.specs.Clock.{clock_of};
ghost use Rattle.calendar.specs.Gregorian.{told_date, date_answer, told_named, civil_answer};
ghost use Rattle.reader.specs.Reading.{file_of};
ghost use Rattle.questions.specs.Questions.{identifier_named, comment_answer, satellite_answer, row_begins, row_answer};
ghost use Rattle.sp3.specs.Doors.{date_door, moment_door};

use crate::types::{DateAnswer, HeaderParts, MomentAnswer};
use calendar::{Civil, Clock, Dated};
use header::{Header, HeaderAnswer, Moment};
use questions::{CommentAnswer, RowAnswer, SatelliteAnswer};

// Where the text of the k-th comment of a file lies.
pub fn sp3_comment(file: &[u8], k: u64) -> CommentAnswer
    ensures result { result ≡ comment_answer (rules_in file.now) file.now (file_of (rules_in file.now) file.now) k }
{
    questions::comment_answer(file, k)
}

// The identifier that a text names, as one number: 7107 for `G07`, 0 for a text that names none.
pub fn sp3_identifier(text: &[u8]) -> u64
    ensures result { result ≡ identifier_named text.now }
{
    questions::identifier_of(text)
}

// The number in a file's header of the satellite with this identifier.
pub fn sp3_satellite_of(file: &[u8], identifier: u64) -> SatelliteAnswer
    ensures result { result ≡ satellite_answer (rules_in file.now) file.now (file_of (rules_in file.now) file.now) identifier }
{
    questions::satellite_of(file, identifier)
}

// The row of an epoch and a satellite of a file, as floats.
pub fn sp3_row(file: &[u8], epoch: u64, satellite: u64) -> RowAnswer
    ensures result { result ≡ row_answer file.now (row_begins (rules_in file.now) file.now (file_of (rules_in file.now) file.now) epoch satellite) }
{
    questions::row(file, epoch, satellite)
}

// What a date names, for C.
impl From<Option<Dated>> for DateAnswer {
    ghost from_gives = { λ found r. r ≡ date_door (told_date found) };

    fn from(found: Option<Dated>) -> DateAnswer {
        match found {
            Some(date) => DateAnswer {
                refusal: 0,
                mjd: date.mjd,
                week: date.week,
                seconds: date.seconds,
            },
            None => DateAnswer {
                refusal: 7,
                mjd: 0,
                week: 0,
                seconds: 0,
            },
        }
    }
}

// MJD, GPS week and seconds of week of a date.
pub fn sp3_date(year: u64, month: u64, day: u64) -> DateAnswer
    ensures result { result ≡ date_door (date_answer year month day) }
{
    DateAnswer::from(calendar::date(year, month, day))
}

// A date found and a time of day, for C.
fn moment_answer(found: Option<Civil>, clock: Clock) -> MomentAnswer
    ensures { result ≡ moment_door (told_named found) clock }
{
    match found {
        Some(date) => MomentAnswer {
            refusal: 0,
            moment: Moment {
                year: date.year,
                month: date.month,
                day: date.day,
                hour: clock.hour,
                minute: clock.minute,
                second8: clock.second8,
            },
        },
        None => MomentAnswer {
            refusal: 7,
            moment: Moment {
                year: 0,
                month: 0,
                day: 0,
                hour: 0,
                minute: 0,
                second8: 0,
            },
        },
    }
}

// The date and time of day of an instant in 10^-8 s since MJD 0.
pub fn sp3_moment(instant8: u64) -> MomentAnswer
    ensures result { result ≡ moment_door (civil_answer (clock_of instant8).day) (clock_of instant8) }
{
    let clock = calendar::clock_of(instant8);
    moment_answer(calendar::civil(clock.day), clock)
}

// A header out of its parts.
pub fn sp3_header(parts: HeaderParts) -> HeaderAnswer
    ensures result { result ≡ header_of parts.mode parts.start parts.epochs parts.interval8 parts.texts parts.satellites parts.comments parts.file_type parts.time_system parts.bases }
{
    let start = parts.start;
    let texts = parts.texts;
    let time_system = parts.time_system;
    let bases = parts.bases;
    Header::new(
        parts.mode,
        start,
        parts.epochs,
        parts.interval8,
        texts,
        parts.satellites,
        parts.comments,
        parts.file_type,
        time_system,
        bases,
    )
}
