pub use field::Signed;
use header::{Bases, Moment, Texts};

// The kinds of line, by columns 1 and 2; P and V by column 1, the end of the file by columns 1 to 3.
#[derive(Clone, Copy)]
pub enum LineKind {
    Other,
    First,
    Second,
    Satellites,
    Accuracies,
    Characters,
    Floats,
    Integers,
    Comment,
    Epoch,
    Position,
    Velocity,
    PositionCorrelation,
    VelocityCorrelation,
    EndOfFile,
}

// Line 1, its mode a letter. A fault is a key: the paper's number times 128, and a column; 0 for none.
#[derive(Clone, Copy)]
pub struct First {
    pub fault: usize,
    pub mode: u8,
    pub start: Moment,
    pub epochs: u64,
    pub texts: Texts,
}

// Line 2: seconds of week and interval in 10^-8 s, the fraction in 10^-13 day.
#[derive(Clone, Copy)]
pub struct Second {
    pub fault: usize,
    pub week: u64,
    pub seconds8: u64,
    pub interval8: u64,
    pub mjd: u64,
    pub fraction13: u64,
}

// An epoch line.
#[derive(Clone, Copy)]
pub struct Epoch {
    pub fault: usize,
    pub moment: Moment,
}

// The first `+ ` line: how many satellites there are, and the identifiers of its 17 slots, 0 in those after the last. An identifier is its
// letter's byte times 100 and its number: G07 is 7107.
#[derive(Clone, Copy)]
pub struct Satellites {
    pub fault: usize,
    pub count: u64,
    pub identifiers: [u64; 17],
}

// A further `+ ` line or a `++` line: the identifiers or accuracy exponents of its 17 slots, 0 in those after the last.
#[derive(Clone, Copy)]
pub struct Slots {
    pub fault: usize,
    pub values: [u64; 17],
}

// The first `%c` line: the file type as its letter, the time system as it stands.
#[derive(Clone, Copy)]
pub struct Descriptor {
    pub fault: usize,
    pub file_type: u8,
    pub time_system: [u8; 3],
}

// The first `%f` line.
#[derive(Clone, Copy)]
pub struct BaseLine {
    pub fault: usize,
    pub bases: Bases,
}

// A P or V line: x, y, z and clock in mm and ps, or 10^-4 mm/s and 10^-16 s/s; an exponent of 1000 is unknown.
#[derive(Clone, Copy)]
pub struct Row {
    pub satellite: u64,
    pub x: Signed,
    pub y: Signed,
    pub z: Signed,
    pub clock: Signed,
    pub x_exponent: u64,
    pub y_exponent: u64,
    pub z_exponent: u64,
    pub clock_exponent: u64,
    pub event: bool,
    pub predicted: bool,
    pub maneuver: bool,
    pub orbit_predicted: bool,
}

// An EP or EV line: deviations in mm and ps, or 10^-4 mm/s and 10^-4 ps/s; correlations in 10^-7. A magnitude of 100,000,000 is unknown.
#[derive(Clone, Copy)]
pub struct Note {
    pub x_deviation: u64,
    pub y_deviation: u64,
    pub z_deviation: u64,
    pub clock_deviation: u64,
    pub xy: Signed,
    pub xz: Signed,
    pub xc: Signed,
    pub yz: Signed,
    pub yc: Signed,
    pub zc: Signed,
}
