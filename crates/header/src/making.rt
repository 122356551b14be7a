// The bounds of a header, and its making out of numbers, letters and texts.
ghost use Rattle.std.specs.Prelude.{◌≡◌, true};
ghost use Rattle.calendar.specs.Clock.{told_instant, instant_answer};
ghost use Rattle.header.specs.Rules.{max_satellites, max_epochs, min_comments};
ghost use Rattle.header.specs.Header.{max_interval, max_place_base, max_clock_base, texts_printable, letters_listed, numbers_bounded, header_made, no_header, refused, header_of};

use crate::types::{Bases, Header, HeaderAnswer, Moment, Texts};
use laws::within;

// Whether the four texts have bytes 32 to 126 alone: a tab in the agency is none.
pub fn texts_printable(texts: Texts) -> bool
    ensures result { result ≡ texts_printable texts }
{
    let used = texts.data_used;
    let coordinates = texts.coordinates;
    let orbit = texts.orbit;
    let agency = texts.agency;
    layout::is_printable(&used)
        & (layout::is_printable(&coordinates)
            & (layout::is_printable(&orbit) & layout::is_printable(&agency)))
}

// Whether every letter, word and text is one that its field may hold.
fn letters_listed(mode: u8, texts: Texts, file_type: u8, time_system: [u8; 3]) -> bool
    ensures result { result ≡ letters_listed mode texts file_type time_system }
{
    let timed = crate::is_time_system(time_system[0], time_system[1], time_system[2]);
    crate::is_mode(mode) & (crate::is_file_type(file_type) & (timed & texts_printable(texts)))
}

// The instant of a start; 7 where it is no date or no time of day.
fn instant_of(m: Moment) -> Option<u64>
    ensures result { told_instant result ≡ instant_answer m.year m.month m.day m.hour m.minute m.second8 }
{
    calendar::instant(m.year, m.month, m.day, m.hour, m.minute, m.second8)
}

// Whether every number is within its bounds.
fn numbers_bounded(
    epochs: u64,
    interval8: u64,
    satellites: u64,
    comments: u64,
    bases: Bases,
) -> bool
    ensures result { result ≡ numbers_bounded epochs interval8 satellites comments bases }
{
    let bases_fit = (bases.place <= Header::MAX_PLACE_BASE)
        & (bases.clock <= Header::MAX_CLOCK_BASE);
    within(1, Header::MAX_EPOCHS, epochs)
        & (within(1, Header::MAX_INTERVAL, interval8)
            & (within(1, Header::MAX_SATELLITES, satellites)
                & ((Header::MIN_COMMENTS <= comments) & bases_fit)))
}

// A refusal beside no header.
fn refuse(number: u64) -> HeaderAnswer
    ensures result { result ≡ refused number }
{
    HeaderAnswer {
        refusal: number,
        header: Header::none(),
    }
}

impl Header {
    // The bounds: satellites, epochs, comments.
    pub const MAX_SATELLITES: u64 = 999;

    pub const MAX_EPOCHS: u64 = 100_000;

    pub const MIN_COMMENTS: u64 = 4;

    // The longest interval in 10^-8 s, below 100,000 s, and the largest bases in 10^-7 and 10^-9.
    pub const MAX_INTERVAL: u64 = 9_999_999_999_999;

    pub const MAX_PLACE_BASE: u64 = 999_999_999;

    pub const MAX_CLOCK_BASE: u64 = 99_999_999_999;

    // The bounds of the type are those of the definitions.
    pub fn bounds_hold() -> bool
        ensures result { result ≡ true }
        ensures satellites { Header.MAX_SATELLITES ≡ max_satellites }
        ensures epochs { Header.MAX_EPOCHS ≡ max_epochs }
        ensures comments { Header.MIN_COMMENTS ≡ min_comments }
        ensures interval { Header.MAX_INTERVAL ≡ max_interval }
        ensures place { Header.MAX_PLACE_BASE ≡ max_place_base }
        ensures clock { Header.MAX_CLOCK_BASE ≡ max_clock_base }
    {
        true
    }

    // A header put together from its parts, untested: it has velocities where the mode is V.
    pub fn of(
        mode: u8,
        start8: u64,
        epochs: u64,
        interval8: u64,
        texts: Texts,
        satellites: u64,
        comments: u64,
        file_type: u8,
        time_system: [u8; 3],
        bases: Bases,
    ) -> Header
        ensures result { result ≡ header_made mode start8 epochs interval8 texts satellites comments file_type time_system bases }
    {
        Header {
            velocity: mode == b'V',
            start8,
            epochs,
            interval8,
            texts,
            satellites,
            comments,
            file_type,
            time_system,
            bases,
        }
    }

    // The header that has nothing in it, which stands beside a refusal.
    pub fn none() -> Header
        ensures result { result ≡ no_header }
    {
        let texts = Texts {
            data_used: [b' '; 5],
            coordinates: [b' '; 5],
            orbit: [b' '; 3],
            agency: [b' '; 4],
        };
        let bases = Bases { place: 0, clock: 0 };
        Header::of(b' ', 0, 0, 0, texts, 0, 0, b' ', [b' '; 3], bases)
    }

    // A header of these letters, numbers and texts, or the lowest refusal: 6 for mode Q, 7 for 1000 satellites, 6 for both.
    pub fn new(
        mode: u8,
        start: Moment,
        epochs: u64,
        interval8: u64,
        texts: Texts,
        satellites: u64,
        comments: u64,
        file_type: u8,
        time_system: [u8; 3],
        bases: Bases,
    ) -> HeaderAnswer
        ensures result { result ≡ header_of mode start epochs interval8 texts satellites comments file_type time_system bases }
    {
        if !letters_listed(mode, texts, file_type, time_system) {
            return refuse(6);
        }
        let Some(start8) = instant_of(start) else {
            return refuse(7);
        };
        if !numbers_bounded(epochs, interval8, satellites, comments, bases) {
            return refuse(7);
        }
        HeaderAnswer {
            refusal: 0,
            header: Header::of(
                mode,
                start8,
                epochs,
                interval8,
                texts,
                satellites,
                comments,
                file_type,
                time_system,
                bases,
            ),
        }
    }
}
