// Rows in lent memory, asked for by name.
ghost use Rattle.std.specs.Prelude.{◌≡◌, Bool};
ghost use Rattle.stored_row.specs.Stored.{place_in, clock_in, exponent_read_in, flag_in, note_in, note_deviation_in, note_correlation_in};
ghost use Rattle.sp3.specs.Doors.{no_place, no_clock, exponent_parts, flag_parts, note_parts, no_deviation, no_correlation, place_door, clock_door, exponent_door, flag_door, note_door, note_deviation_door, note_correlation_door};

use crate::types::{
    NoteCorrelationAnswer, NoteDeviationAnswer, StoredClock, StoredExponent, StoredFlag,
    StoredNote, StoredPlace,
};
use stored_row::{ClockRead, ExponentRead, Flag, NoteCorrelation, NoteDeviation, NoteMark, Place};

// What stands for a number that is not there: the least of 64 bits, which no field of a file can hold.
const NO_NUMBER: i64 = -9_223_372_036_854_775_808;

// The same for a count: the largest of 64 bits.
const NO_COUNT: u64 = 18_446_744_073_709_551_615;

// No place, absent or not there.
fn no_place(refusal: usize) -> StoredPlace
    ensures { result ≡ no_place refusal }
{
    StoredPlace {
        refusal,
        absent: true,
        x: NO_NUMBER,
        y: NO_NUMBER,
        z: NO_NUMBER,
    }
}

// A place, for C.
impl From<Place> for StoredPlace {
    ghost from_gives = { λ found r. r ≡ place_door found };

    fn from(found: Place) -> StoredPlace {
        match found {
            Place::At { x, y, z } => StoredPlace {
                refusal: 0,
                absent: false,
                x,
                y,
                z,
            },
            Place::Absent => no_place(0),
            Place::NotThere => no_place(13),
        }
    }
}

// The place or velocity of the k-th stored row.
pub fn sp3_place_of(rows: &[i64], k: usize) -> StoredPlace
    ensures result { result ≡ place_door (place_in rows.now k) }
{
    StoredPlace::from(stored_row::place_of(rows, k))
}

// No clock, absent or not there.
fn no_clock(refusal: usize) -> StoredClock
    ensures { result ≡ no_clock refusal }
{
    StoredClock {
        refusal,
        absent: true,
        clock: NO_NUMBER,
    }
}

// A clock, for C.
impl From<ClockRead> for StoredClock {
    ghost from_gives = { λ found r. r ≡ clock_door found };

    fn from(found: ClockRead) -> StoredClock {
        match found {
            ClockRead::At(clock) => StoredClock {
                refusal: 0,
                absent: false,
                clock,
            },
            ClockRead::Absent => no_clock(0),
            ClockRead::NotThere => no_clock(13),
        }
    }
}

// The clock or rate of the k-th stored row.
pub fn sp3_clock_of(rows: &[i64], k: usize) -> StoredClock
    ensures result { result ≡ clock_door (clock_in rows.now k) }
{
    StoredClock::from(stored_row::clock_of(rows, k))
}

// The parts of an exponent.
fn exponent(refusal: usize, unknown: bool, too_large: bool, value: u64) -> StoredExponent
    ensures { result ≡ exponent_parts refusal unknown too_large value }
{
    StoredExponent {
        refusal,
        unknown,
        too_large,
        value,
    }
}

// An exponent, for C.
impl From<ExponentRead> for StoredExponent {
    ghost from_gives = { λ found r. r ≡ exponent_door found };

    fn from(found: ExponentRead) -> StoredExponent {
        match found {
            ExponentRead::Value(value) => exponent(0, false, false, value),
            ExponentRead::Unknown => exponent(0, true, false, 0),
            ExponentRead::TooLarge => exponent(0, false, true, 0),
            ExponentRead::NotThere => exponent(13, true, false, 0),
        }
    }
}

// The exponent of x, y, z or clock (0 to 3) of the k-th stored row.
pub fn sp3_exponent_of(rows: &[i64], k: usize, which: usize) -> StoredExponent
    ensures result { result ≡ exponent_door (exponent_read_in rows.now k which) }
{
    StoredExponent::from(stored_row::exponent_of(rows, k, which))
}

// The parts of a flag.
fn flag(refusal: usize, set: bool) -> StoredFlag
    ensures { result ≡ flag_parts refusal set }
{
    StoredFlag { refusal, set }
}

// A flag, for C.
impl From<Flag> for StoredFlag {
    ghost from_gives = { λ found r. r ≡ flag_door found };

    fn from(found: Flag) -> StoredFlag {
        match found {
            Flag::Set => flag(0, true),
            Flag::NotSet => flag(0, false),
            Flag::NotThere => flag(13, false),
        }
    }
}

// The flag of column 75, 76, 79 or 80 (0 to 3) of the k-th stored row.
pub fn sp3_flag_of(rows: &[i64], k: usize, which: usize) -> StoredFlag
    ensures result { result ≡ flag_door (flag_in rows.now k which) }
{
    StoredFlag::from(stored_row::flag_of(rows, k, which))
}

// The parts of a note's mark.
fn note(refusal: usize, stands: bool) -> StoredNote
    ensures { result ≡ note_parts refusal stands }
{
    StoredNote { refusal, stands }
}

// A note's mark, for C.
impl From<NoteMark> for StoredNote {
    ghost from_gives = { λ found r. r ≡ note_door found };

    fn from(found: NoteMark) -> StoredNote {
        match found {
            NoteMark::Stands => note(0, true),
            NoteMark::NoRecord => note(0, false),
            NoteMark::NotThere => note(13, false),
        }
    }
}

// Whether an EP or EV line stood after the k-th stored row.
pub fn sp3_note_of(rows: &[i64], k: usize) -> StoredNote
    ensures result { result ≡ note_door (note_in rows.now k) }
{
    StoredNote::from(stored_row::note_of(rows, k))
}

// No deviation: unknown, too large, not recorded or not there.
fn no_deviation(
    refusal: usize,
    no_record: bool,
    unknown: bool,
    too_large: bool,
) -> NoteDeviationAnswer
    ensures { result ≡ no_deviation refusal no_record unknown too_large }
{
    NoteDeviationAnswer {
        refusal,
        no_record,
        unknown,
        too_large,
        value: NO_COUNT,
    }
}

// A deviation, for C.
impl From<NoteDeviation> for NoteDeviationAnswer {
    ghost from_gives = { λ found r. r ≡ note_deviation_door found };

    fn from(found: NoteDeviation) -> NoteDeviationAnswer {
        match found {
            NoteDeviation::Value(value) => NoteDeviationAnswer {
                refusal: 0,
                no_record: false,
                unknown: false,
                too_large: false,
                value,
            },
            NoteDeviation::Unknown => no_deviation(0, false, true, false),
            NoteDeviation::TooLarge => no_deviation(0, false, false, true),
            NoteDeviation::NoRecord => no_deviation(0, true, false, false),
            NoteDeviation::NotThere => no_deviation(13, true, false, false),
        }
    }
}

// The deviation of x, y, z or clock (0 to 3) in the note of the k-th stored row.
pub fn sp3_note_deviation_of(rows: &[i64], k: usize, which: usize) -> NoteDeviationAnswer
    ensures result { result ≡ note_deviation_door (note_deviation_in rows.now k which) }
{
    NoteDeviationAnswer::from(stored_row::note_deviation_of(rows, k, which))
}

// No correlation, unknown, not recorded or not there.
fn no_correlation(refusal: usize, no_record: bool, unknown: bool) -> NoteCorrelationAnswer
    ensures { result ≡ no_correlation refusal no_record unknown }
{
    NoteCorrelationAnswer {
        refusal,
        no_record,
        unknown,
        value: NO_NUMBER,
    }
}

// A correlation, for C.
impl From<NoteCorrelation> for NoteCorrelationAnswer {
    ghost from_gives = { λ found r. r ≡ note_correlation_door found };

    fn from(found: NoteCorrelation) -> NoteCorrelationAnswer {
        match found {
            NoteCorrelation::Value(value) => NoteCorrelationAnswer {
                refusal: 0,
                no_record: false,
                unknown: false,
                value,
            },
            NoteCorrelation::Unknown => no_correlation(0, false, true),
            NoteCorrelation::NoRecord => no_correlation(0, true, false),
            NoteCorrelation::NotThere => no_correlation(13, true, false),
        }
    }
}

// The correlation xy, xz, xc, yz, yc or zc (0 to 5) in the note of the k-th stored row.
pub fn sp3_note_correlation_of(rows: &[i64], k: usize, which: usize) -> NoteCorrelationAnswer
    ensures result { result ≡ note_correlation_door (note_correlation_in rows.now k which) }
{
    NoteCorrelationAnswer::from(stored_row::note_correlation_of(rows, k, which))
}
