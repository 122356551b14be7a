// What a date names: MJD in days, GPS week, seconds of week in whole s.
#[derive(Clone, Copy)]
pub struct Dated {
    pub mjd: u64,
    pub week: u64,
    pub seconds: u64,
}

// A date of the plain calendar: year, month from 1 for January, day of the month from 1.
#[derive(Clone, Copy)]
pub struct Civil {
    pub year: u64,
    pub month: u64,
    pub day: u64,
}

// The day (MJD) and the time of day of an instant: hour, minute, and second in 10^-8 s.
#[derive(Clone, Copy)]
pub struct Clock {
    pub day: u64,
    pub hour: u64,
    pub minute: u64,
    pub second8: u64,
}

// The GPS week of an instant and its seconds of week in 10^-8 s.
#[derive(Clone, Copy)]
pub struct Week {
    pub week: u64,
    pub second8: u64,
}
