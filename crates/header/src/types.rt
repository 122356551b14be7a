// A date and a time of day, the seconds in 10^-8 s.
#[repr(C)]
#[derive(Clone, Copy)]
pub struct Moment {
    pub year: u64,
    pub month: u64,
    pub day: u64,
    pub hour: u64,
    pub minute: u64,
    pub second8: u64,
}

// The four texts of line 1, kept as they stand: columns 41 to 45, 47 to 51, 53 to 55, 57 to 60.
#[repr(C)]
#[derive(Clone, Copy)]
pub struct Texts {
    pub data_used: [u8; 5],
    pub coordinates: [u8; 5],
    pub orbit: [u8; 3],
    pub agency: [u8; 4],
}

// The bases of place and clock exponents, in 10^-7 and 10^-9.
#[repr(C)]
#[derive(Clone, Copy)]
pub struct Bases {
    pub place: u64,
    pub clock: u64,
}

// What the header lines of a file say: the start in 10^-8 s since MJD 0, the interval in 10^-8 s.
#[repr(C)]
#[derive(Clone, Copy)]
pub struct Header {
    pub velocity: bool,
    pub start8: u64,
    pub epochs: u64,
    pub interval8: u64,
    pub texts: Texts,
    pub satellites: u64,
    pub comments: u64,
    pub file_type: u8,
    pub time_system: [u8; 3],
    pub bases: Bases,
}

// A header, with the number of the answer beside it: 0, or 6 or 7 and a header that has nothing in it.
#[repr(C)]
#[derive(Clone, Copy)]
pub struct HeaderAnswer {
    pub refusal: u64,
    pub header: Header,
}

// A version of the format that is read and written: SP3-c or SP3-d.
#[derive(Clone, Copy)]
pub enum Version {
    C,
    D,
}

// The rules of a version: its letter in column 2, its most satellites, its fewest and most comments, the columns of a comment line.
#[derive(Clone, Copy)]
pub struct Rules {
    pub letter: u8,
    pub most_satellites: u64,
    pub fewest_comments: u64,
    pub most_comments: u64,
    pub comment_columns: u64,
}
