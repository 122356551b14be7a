// A header of numbers, in the order of the batch: mode, year, month, day, hour, minute, seconds in 10^-8, epochs, interval in 10^-8 s, satellites,
// comments, file type, three letters of the time system, two bases, and the seventeen letters of the texts.
use header::{Bases, Header, HeaderAnswer, Moment, Texts};
use std::array;

// The numbers of a header.
pub(crate) type Numbers = [u64; 34];

// What a header is made of.
#[derive(Clone, Copy)]
pub(crate) struct Fields {
    mode: u8,
    start: Moment,
    epochs: u64,
    interval8: u64,
    texts: Texts,
    satellites: u64,
    comments: u64,
    file_type: u8,
    time_system: [u8; 3],
    bases: Bases,
}

// A number as a byte.
fn letter(n: u64) -> u8 {
    (n % 256) as u8
}

// The numbers from `from` on as bytes; 0 past the last.
fn letters<const N: usize>(n: &[u64], from: usize) -> [u8; N] {
    let rest = n.get(from..).unwrap_or_default();
    array::from_fn(|k| letter(rest.get(k).copied().unwrap_or(0)))
}

// The texts.
fn texts(n: &[u64]) -> Texts {
    Texts {
        data_used: letters(n, 17),
        coordinates: letters(n, 22),
        orbit: letters(n, 27),
        agency: letters(n, 30),
    }
}

// The start.
fn moment(n: &Numbers) -> Moment {
    Moment {
        year: n[1],
        month: n[2],
        day: n[3],
        hour: n[4],
        minute: n[5],
        second8: n[6],
    }
}

impl From<&Numbers> for Fields {
    fn from(n: &Numbers) -> Fields {
        Fields {
            mode: letter(n[0]),
            start: moment(n),
            epochs: n[7],
            interval8: n[8],
            texts: texts(n),
            satellites: n[9],
            comments: n[10],
            file_type: letter(n[11]),
            time_system: letters(n, 12),
            bases: Bases {
                place: n[15],
                clock: n[16],
            },
        }
    }
}

impl Fields {
    // The header made by its own function.
    pub(crate) fn made(self) -> HeaderAnswer {
        Header::new(
            self.mode,
            self.start,
            self.epochs,
            self.interval8,
            self.texts,
            self.satellites,
            self.comments,
            self.file_type,
            self.time_system,
            self.bases,
        )
    }

    // The header with these fields and this start, whatever they are.
    pub(crate) fn with(self, start8: u64) -> Header {
        let Fields {
            mode,
            start: _,
            epochs,
            interval8,
            texts,
            satellites,
            comments,
            file_type,
            time_system,
            bases,
        } = self;
        Header {
            velocity: mode == b'V',
            start8,
            epochs,
            interval8,
            texts,
            satellites,
            comments,
            file_type,
            time_system,
            bases,
        }
    }
}
