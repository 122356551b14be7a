// Answers as C can hold them: an enum of the library becomes a struct with the paper's number, and what is absent has a mark of its own.
use float_row::FloatRow;
use header::{Bases, Moment, Texts};
use line_walk::Spot;
use row_walk::RowWalk;

// What a date names: the refusal (0 or 7), MJD in days, GPS week, seconds of week in whole s; 0 beside a refusal.
#[repr(C)]
#[derive(Clone, Copy)]
pub struct DateAnswer {
    pub refusal: usize,
    pub mjd: u64,
    pub week: u64,
    pub seconds: u64,
}

// The date and time of day of an instant: the refusal (0 or 7); all parts 0 beside a refusal.
#[repr(C)]
#[derive(Clone, Copy)]
pub struct MomentAnswer {
    pub refusal: usize,
    pub moment: Moment,
}

// Everything that a header is made of.
#[repr(C)]
#[derive(Clone, Copy)]
pub struct HeaderParts {
    pub mode: u8,
    pub start: Moment,
    pub epochs: u64,
    pub interval8: u64,
    pub texts: Texts,
    pub satellites: u64,
    pub comments: u64,
    pub file_type: u8,
    pub time_system: [u8; 3],
    pub bases: Bases,
}

// A stored place in mm, or velocity in 10^-4 mm/s: the refusal (0 or 13) and the mark of absence. What is absent or not there has the least
// number of 64 bits three times, which no field of a file can hold.
#[repr(C)]
#[derive(Clone, Copy)]
pub struct StoredPlace {
    pub refusal: usize,
    pub absent: bool,
    pub x: i64,
    pub y: i64,
    pub z: i64,
}

// A stored clock in ps, or rate in 10^-16 s/s, in the same way.
#[repr(C)]
#[derive(Clone, Copy)]
pub struct StoredClock {
    pub refusal: usize,
    pub absent: bool,
    pub clock: i64,
}

// A stored exponent: the refusal (0 or 13), unknown and too large each a mark of its own; the value is 0 beside any of them, and what is not there
// is marked unknown.
#[repr(C)]
#[derive(Clone, Copy)]
pub struct StoredExponent {
    pub refusal: usize,
    pub unknown: bool,
    pub too_large: bool,
    pub value: u64,
}

// A stored flag: the refusal (0 or 13), and whether it is set.
#[repr(C)]
#[derive(Clone, Copy)]
pub struct StoredFlag {
    pub refusal: usize,
    pub set: bool,
}

// Whether an EP or EV line stood after a stored row: the refusal (0 or 13); beside one none stands.
#[repr(C)]
#[derive(Clone, Copy)]
pub struct StoredNote {
    pub refusal: usize,
    pub stands: bool,
}

// A deviation of such a line: the refusal (0 or 13); no record, unknown and too large each a mark of its own, beside which the value is the largest
// number of 64 bits; what is not there is marked as no record.
#[repr(C)]
#[derive(Clone, Copy)]
pub struct NoteDeviationAnswer {
    pub refusal: usize,
    pub no_record: bool,
    pub unknown: bool,
    pub too_large: bool,
    pub value: u64,
}

// A correlation of such a line in 10^-7, in the same way; beside a mark the value is the least number of 64 bits.
#[repr(C)]
#[derive(Clone, Copy)]
pub struct NoteCorrelationAnswer {
    pub refusal: usize,
    pub no_record: bool,
    pub unknown: bool,
    pub value: i64,
}

// What a line does: the refusal (0, 1 where no complete line is left, 2 to 10) and its column (0 for none), whether the line ends the file, and the
// spot after the line; where the line is refused the spot before it, where it ends the file the state before it.
#[repr(C)]
#[derive(Clone, Copy)]
pub struct LineAnswer {
    pub refusal: usize,
    pub column: usize,
    pub finished: bool,
    pub next: Spot,
}

// The next row of a walk: the refusal, its line and its column, whether the file is at its end, epoch and satellite counted from 0, the row, and the walk
// after it. Beside a refusal and at the end both parts of the row are absent and the walk is as it was.
#[repr(C)]
#[derive(Clone, Copy)]
pub struct RowStepAnswer {
    pub refusal: usize,
    pub line: u64,
    pub column: usize,
    pub end: bool,
    pub epoch: u64,
    pub satellite: u64,
    pub row: FloatRow,
    pub next: RowWalk,
}
