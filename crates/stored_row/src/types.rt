// A stored place or velocity: mm, or 10^-4 mm/s. A row that is not there is 13.
#[derive(Clone, Copy)]
pub enum Place {
    At { x: i64, y: i64, z: i64 },
    Absent,
    NotThere,
}

// A stored clock or rate: ps, or 10^-16 s/s.
#[derive(Clone, Copy)]
pub enum ClockRead {
    At(i64),
    Absent,
    NotThere,
}

// The exponent of a standard deviation.
#[derive(Clone, Copy)]
pub enum ExponentRead {
    Value(u64),
    Unknown,
    TooLarge,
    NotThere,
}

// A flag of a P row.
#[derive(Clone, Copy)]
pub enum Flag {
    Set,
    NotSet,
    NotThere,
}

// Whether an EP or EV line stood directly after the row's own.
#[derive(Clone, Copy)]
pub enum NoteMark {
    Stands,
    NoRecord,
    NotThere,
}

// A deviation of such a line: mm or ps, or 10^-4 mm/s or 10^-4 ps/s.
#[derive(Clone, Copy)]
pub enum NoteDeviation {
    Value(u64),
    Unknown,
    TooLarge,
    NoRecord,
    NotThere,
}

// A correlation of such a line, in 10^-7.
#[derive(Clone, Copy)]
pub enum NoteCorrelation {
    Value(i64),
    Unknown,
    NoRecord,
    NotThere,
}
