// Rows in lent memory, asked for by name.
ghost use Rattle.std.specs.Prelude.{◌≡◌};
ghost use Rattle.stored_row.specs.Stored.{place_in, clock_in, exponent_read_in, flag_in, note_in, note_deviation_in, note_correlation_in};
ghost use Rattle.sp3.specs.Doors.{place_door, clock_door, exponent_door, flag_door, note_door, note_deviation_door, note_correlation_door};

use sp3::{
    NoteCorrelationAnswer, NoteDeviationAnswer, StoredClock, StoredExponent, StoredFlag,
    StoredNote, StoredPlace,
};

// The place or velocity of the k-th stored row.
#[unsafe(no_mangle)]
pub extern "C" fn sp3_place_of(rows: &[i64], k: usize) -> StoredPlace
    ensures result { result ≡ place_door (place_in rows.now k) }
{
    sp3::sp3_place_of(rows, k)
}

// The clock or rate of the k-th stored row.
#[unsafe(no_mangle)]
pub extern "C" fn sp3_clock_of(rows: &[i64], k: usize) -> StoredClock
    ensures result { result ≡ clock_door (clock_in rows.now k) }
{
    sp3::sp3_clock_of(rows, k)
}

// The exponent of x, y, z or clock (0 to 3) of the k-th stored row.
#[unsafe(no_mangle)]
pub extern "C" fn sp3_exponent_of(rows: &[i64], k: usize, which: usize) -> StoredExponent
    ensures result { result ≡ exponent_door (exponent_read_in rows.now k which) }
{
    sp3::sp3_exponent_of(rows, k, which)
}

// The flag of column 75, 76, 79 or 80 (0 to 3) of the k-th stored row.
#[unsafe(no_mangle)]
pub extern "C" fn sp3_flag_of(rows: &[i64], k: usize, which: usize) -> StoredFlag
    ensures result { result ≡ flag_door (flag_in rows.now k which) }
{
    sp3::sp3_flag_of(rows, k, which)
}

// Whether an EP or EV line stood after the k-th stored row.
#[unsafe(no_mangle)]
pub extern "C" fn sp3_note_of(rows: &[i64], k: usize) -> StoredNote
    ensures result { result ≡ note_door (note_in rows.now k) }
{
    sp3::sp3_note_of(rows, k)
}

// The deviation of x, y, z or clock (0 to 3) in the note of the k-th stored row.
#[unsafe(no_mangle)]
pub extern "C" fn sp3_note_deviation_of(rows: &[i64], k: usize, which: usize) -> NoteDeviationAnswer
    ensures result { result ≡ note_deviation_door (note_deviation_in rows.now k which) }
{
    sp3::sp3_note_deviation_of(rows, k, which)
}

// The correlation xy, xz, xc, yz, yc or zc (0 to 5) in the note of the k-th stored row.
#[unsafe(no_mangle)]
pub extern "C" fn sp3_note_correlation_of(
    rows: &[i64],
    k: usize,
    which: usize,
) -> NoteCorrelationAnswer
    ensures result { result ≡ note_correlation_door (note_correlation_in rows.now k which) }
{
    sp3::sp3_note_correlation_of(rows, k, which)
}
