// The note of a stored row, the EP or EV line directly after its own: eleven numbers behind the row's twelve, asked for by name.
ghost use Rattle.std.specs.Prelude.{◌≡◌, true, eqb};
ghost use Rattle.record.specs.Notes.{largest_deviation};
ghost use Rattle.stored_row.specs.Stored.{is_there, has_note, note_in, note_deviation_in, note_correlation_in, told_note, told_note_deviation, told_note_correlation};

use crate::rows;
use crate::types::{NoteCorrelation, NoteDeviation, NoteMark};
use record::notes::{LARGEST_CLOCK_DEVIATION, LARGEST_DEVIATION, UNNOTED};
use record::rows::{BARE_WIDTH, ROW_WIDTH};

// Whether the k-th row, which is there, has a note.
fn has_note(rows: &[i64], k: usize) -> bool
    requires { is_there rows.now k ≡ true }
    ensures { result ≡ has_note rows.now k }
{
    rows[k * ROW_WIDTH + BARE_WIDTH] != 0
}

// Whether a deviation is the largest, which means too large.
fn is_largest(clock: bool, n: u64) -> bool
    ensures { result ≡ eqb n (largest_deviation clock) }
{
    if clock {
        n == LARGEST_CLOCK_DEVIATION
    } else {
        n == LARGEST_DEVIATION
    }
}

// Whether an EP or EV line stood directly after the line of the k-th row.
#[tactic(auto, unfolding(crate::specs::Stored::note_in))]
pub fn note_of(rows: &[i64], k: usize) -> NoteMark
    ensures result { told_note result ≡ told_note (note_in rows.now k) }
{
    if !rows::is_there(rows, k) {
        return NoteMark::NotThere;
    }
    if has_note(rows, k) {
        return NoteMark::Stands;
    }
    NoteMark::NoRecord
}

// The deviation of x, y, z or clock (0 to 3) in the note of the k-th row.
#[tactic(auto, unfolding(crate::specs::Stored::note_deviation_in))]
pub fn note_deviation_of(rows: &[i64], k: usize, which: usize) -> NoteDeviation
    ensures result { told_note_deviation result ≡ told_note_deviation (note_deviation_in rows.now k which) }
{
    let Some(v) = rows::asked(rows, k, 13, 3, which) else {
        return NoteDeviation::NotThere;
    };
    if !has_note(rows, k) {
        return NoteDeviation::NoRecord;
    }
    let n = field::sign::magnitude_of(v);
    if n == UNNOTED {
        return NoteDeviation::Unknown;
    }
    if is_largest(which == 3, n) {
        return NoteDeviation::TooLarge;
    }
    NoteDeviation::Value(n)
}

// The size of a correlation that is unknown.
const UNKNOWN_CORRELATION: u64 = UNNOTED;

// The correlation xy, xz, xc, yz, yc or zc (0 to 5) in the note of the k-th row.
#[tactic(auto, unfolding(crate::specs::Stored::note_correlation_in))]
pub fn note_correlation_of(rows: &[i64], k: usize, which: usize) -> NoteCorrelation
    ensures result { told_note_correlation result ≡ told_note_correlation (note_correlation_in rows.now k which) }
{
    let Some(v) = rows::asked(rows, k, 17, 5, which) else {
        return NoteCorrelation::NotThere;
    };
    if !has_note(rows, k) {
        return NoteCorrelation::NoRecord;
    }
    if field::sign::magnitude_of(v) == UNKNOWN_CORRELATION {
        return NoteCorrelation::Unknown;
    }
    NoteCorrelation::Value(v)
}
