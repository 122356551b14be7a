// A file line by line, and row by row.
ghost use Rattle.std.specs.Prelude.{◌≡◌, length};
ghost use Rattle.header.specs.Versions.{rules_in};
ghost use Rattle.machine.specs.Due.{due_at};
ghost use Rattle.machine.specs.Step.{line_known, line_read, line_identifiers};
ghost use Rattle.reader.specs.Reading.{file_of, judged};
ghost use Rattle.line_walk.specs.Spots.{first_spot, spots_after, identifiers_past};
ghost use Rattle.row_walk.specs.Begin.{begun_as, identifiers_begun};
ghost use Rattle.row_walk.specs.Rows.{first_walk, row_step};
ghost use Rattle.sp3.specs.Doors.{line_door, row_door};

use line_walk::Spot;
use machine::Due;
use reader::Reading;
use row_walk::RowWalk;
use sp3::{LineAnswer, RowStepAnswer};

// Before the first line of a file.
#[unsafe(no_mangle)]
pub extern "C" fn sp3_first_spot() -> Spot
    ensures result { result ≡ first_spot }
{
    sp3::sp3_first_spot()
}

// The plain line reader: what the line at a spot does. A `+ ` line leaves its identifiers in `identifiers`; 12 where they are more than fit.
#[unsafe(no_mangle)]
pub extern "C" fn sp3_read_line(bytes: &[u8], spot: Spot, identifiers: &mut [u64]) -> LineAnswer
    ensures result { result ≡ line_door spot (line_read (rules_in bytes.now) bytes.now spot.at spot.state identifiers.old) }
    ensures lent { identifiers.new ≡ line_identifiers (rules_in bytes.now) bytes.now spot.at spot.state identifiers.old }
{
    sp3::sp3_read_line(bytes, spot, identifiers)
}

// The same where the identifiers of the header are known.
#[unsafe(no_mangle)]
pub extern "C" fn sp3_next_line<'a>(
    file: &'a [u8],
    identifiers: &'a [u64],
    spot: Spot,
) -> LineAnswer
    ensures result { result ≡ line_door spot (line_known (rules_in file.now) file.now spot.at spot.state identifiers.now) }
{
    sp3::sp3_next_line(file, identifiers, spot)
}

// What must stand at a spot, where the identifiers are those of the lines before it.
#[unsafe(no_mangle)]
pub extern "C" fn sp3_due<'a>(file: &'a [u8], identifiers: &'a [u64], spot: Spot) -> Due
    ensures result { result ≡ due_at (rules_in file.now) file.now spot.at spot.state identifiers.now }
{
    sp3::sp3_due(file, identifiers, spot)
}

// A walk: the spot so many lines further. A `+ ` line leaves its identifiers in `identifiers`.
#[unsafe(no_mangle)]
pub extern "C" fn sp3_after_lines(
    file: &[u8],
    identifiers: &mut [u64],
    spot: Spot,
    lines: usize,
) -> Spot
    ensures result { result ≡ spots_after (rules_in file.now) file.now identifiers.old spot lines }
    ensures lent { identifiers.new ≡ identifiers_past (rules_in file.now) file.now identifiers.old spot lines }
{
    sp3::sp3_after_lines(file, identifiers, spot, lines)
}

// Before a walk over rows: the file judged, the identifiers of its header left in `identifiers`.
#[unsafe(no_mangle)]
pub extern "C" fn sp3_begin(file: &[u8], identifiers: &mut [u64]) -> Reading
    ensures result { result ≡ begun_as (judged (rules_in file.now) file.now (file_of (rules_in file.now) file.now)) (length identifiers.old) }
    ensures lent { identifiers.new ≡ identifiers_begun (rules_in file.now) (judged (rules_in file.now) file.now (file_of (rules_in file.now) file.now)) file.now identifiers.old }
{
    sp3::sp3_begin(file, identifiers)
}

// Before the first row.
#[unsafe(no_mangle)]
pub extern "C" fn sp3_first_row() -> RowWalk
    ensures result { result ≡ first_walk }
{
    sp3::sp3_first_row()
}

// The next row of a file in order.
#[unsafe(no_mangle)]
pub extern "C" fn sp3_next_row<'a>(
    file: &'a [u8],
    identifiers: &'a [u64],
    from: RowWalk,
) -> RowStepAnswer
    ensures result { result ≡ row_door from (row_step (rules_in file.now) file.now identifiers.now from) }
{
    sp3::sp3_next_row(file, identifiers, from)
}
