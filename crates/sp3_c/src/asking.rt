// Questions: for a comment, a satellite, a row of a file; for a date; for a header.
ghost use Rattle.std.specs.Prelude.{◌≡◌};
ghost use Rattle.header.specs.Versions.{rules_in};
ghost use Rattle.header.specs.Header.{header_of};
ghost use Rattle.calendar.specs.Clock.{clock_of};
ghost use Rattle.calendar.specs.Gregorian.{date_answer, civil_answer};
ghost use Rattle.reader.specs.Reading.{file_of};
ghost use Rattle.questions.specs.Questions.{identifier_named, comment_answer, satellite_answer, row_begins, row_answer};
ghost use Rattle.sp3.specs.Doors.{date_door, moment_door};

use header::HeaderAnswer;
use questions::{CommentAnswer, RowAnswer, SatelliteAnswer};
use sp3::{DateAnswer, HeaderParts, MomentAnswer};

// Where the text of the k-th comment of a file lies.
#[unsafe(no_mangle)]
pub extern "C" fn sp3_comment(file: &[u8], k: u64) -> CommentAnswer
    ensures result { result ≡ comment_answer (rules_in file.now) file.now (file_of (rules_in file.now) file.now) k }
{
    sp3::sp3_comment(file, k)
}

// The identifier that a text names, as one number: 7107 for `G07`, 0 for a text that names none.
#[unsafe(no_mangle)]
pub extern "C" fn sp3_identifier(text: &[u8]) -> u64
    ensures result { result ≡ identifier_named text.now }
{
    sp3::sp3_identifier(text)
}

// The number in a file's header of the satellite with this identifier.
#[unsafe(no_mangle)]
pub extern "C" fn sp3_satellite_of(file: &[u8], identifier: u64) -> SatelliteAnswer
    ensures result { result ≡ satellite_answer (rules_in file.now) file.now (file_of (rules_in file.now) file.now) identifier }
{
    sp3::sp3_satellite_of(file, identifier)
}

// The row of an epoch and a satellite of a file, as floats.
#[unsafe(no_mangle)]
pub extern "C" fn sp3_row(file: &[u8], epoch: u64, satellite: u64) -> RowAnswer
    ensures result { result ≡ row_answer file.now (row_begins (rules_in file.now) file.now (file_of (rules_in file.now) file.now) epoch satellite) }
{
    sp3::sp3_row(file, epoch, satellite)
}

// MJD, GPS week and seconds of week of a date.
#[unsafe(no_mangle)]
pub extern "C" fn sp3_date(year: u64, month: u64, day: u64) -> DateAnswer
    ensures result { result ≡ date_door (date_answer year month day) }
{
    sp3::sp3_date(year, month, day)
}

// The date and time of day of an instant in 10^-8 s since MJD 0.
#[unsafe(no_mangle)]
pub extern "C" fn sp3_moment(instant8: u64) -> MomentAnswer
    ensures result { result ≡ moment_door (civil_answer (clock_of instant8).day) (clock_of instant8) }
{
    sp3::sp3_moment(instant8)
}

// A header out of its parts.
#[unsafe(no_mangle)]
pub extern "C" fn sp3_header(parts: HeaderParts) -> HeaderAnswer
    ensures result { result ≡ header_of parts.mode parts.start parts.epochs parts.interval8 parts.texts parts.satellites parts.comments parts.file_type parts.time_system parts.bases }
{
    sp3::sp3_header(parts)
}
