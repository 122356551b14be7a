// The records that the lines of a table show.
ghost use Rattle.std.specs.Prelude.{◌≡◌, true, ◌+◌, ◌*◌, ◌/◌, ◌<◌, ◌≤◌, length, nat_abs};
ghost use Rattle.calendar.specs.Clock.{day_units};
ghost use Rattle.record.specs.Rows.{note_width, row_width};
ghost use Rattle.canon.specs.Valid.{is_instant, entry};
ghost use Rattle.canon.specs.Canonical.{moment_of, first_shown, second_shown, seventeen, signed_shown, flag_shown, row_shown, note_shown};

use calendar::DAY;
use field::sign::{is_negative, magnitude_of};
use header::{Header, Moment};
use record::{First, Note, Row, Second, Signed};

// The date and time of an instant.
pub(crate) fn moment_of(at8: u64) -> Moment
    requires { is_instant at8 ≡ true }
    ensures { result ≡ moment_of at8 }
{
    let clock = calendar::clock_of(at8);
    let date = calendar::civil(clock.day).unwrap();
    Moment {
        year: date.year,
        month: date.month,
        day: date.day,
        hour: clock.hour,
        minute: clock.minute,
        second8: clock.second8,
    }
}

// Line 1 of a table.
#[tactic(auto, unfolding(canon::specs::Canonical::first_shown))]
pub(crate) fn first_shown(h: Header) -> First
    requires { is_instant h.start8 ≡ true }
    ensures { result ≡ first_shown h }
{
    let texts = h.texts;
    First {
        fault: 0,
        mode: if h.velocity { b'V' } else { b'P' },
        start: moment_of(h.start8),
        epochs: h.epochs,
        texts,
    }
}

// The fraction of day of a time of day.
fn fraction_of(time: u64) -> u64
    requires { time < day_units }
    ensures { result ≡ (125 * time + 54) / 108 }
{
    calendar::fraction_of(time).unwrap()
}

// Line 2 of a table.
pub(crate) fn second_shown(h: Header) -> Second
    requires { is_instant h.start8 ≡ true }
    ensures { result ≡ second_shown h }
{
    let start = calendar::week_of(h.start8).unwrap();
    Second {
        fault: 0,
        week: start.week,
        seconds8: start.second8,
        interval8: h.interval8,
        mjd: h.start8 / DAY,
        fraction13: fraction_of(h.start8 % DAY),
    }
}

// The next seventeen numbers, zeros after the last.
#[tactic(auto, unfolding(canon::specs::Canonical::seventeen))]
pub(crate) fn seventeen(numbers: &[u64]) -> [u64; 17]
    ensures { result ≡ seventeen numbers.now }
{
    let mut slots = [0u64; 17];
    lines::lay_numbers(&mut slots, numbers);
    slots
}

// The magnitude of the number at a place of a row.
fn magnitude_at(row: &[i64], i: usize) -> u64
    requires { i + 1 ≤ length row.now }
    ensures { result ≡ nat_abs (entry row.now i) }
{
    magnitude_of(row[i])
}

// The flag at a place of a row.
pub(crate) fn flag_at(row: &[i64], i: usize) -> bool
    requires { i + 1 ≤ length row.now }
    ensures { result ≡ flag_shown (entry row.now i) }
{
    magnitude_at(row, i) != 0
}

// The number at a place of a row, as its sign and magnitude.
fn signed_at(row: &[i64], i: usize) -> Signed
    requires { i + 1 ≤ length row.now }
    ensures { result ≡ signed_shown (entry row.now i) }
{
    Signed {
        negative: is_negative(row[i]),
        magnitude: magnitude_at(row, i),
    }
}

// The row of a satellite of its stored numbers.
#[tactic(auto, unfolding(canon::specs::Canonical::row_shown))]
pub(crate) fn row_shown(identifier: u64, row: &[i64]) -> Row
    requires { length row.now ≡ row_width }
    ensures { result ≡ row_shown identifier row.now }
{
    Row {
        satellite: identifier,
        x: signed_at(row, 0),
        y: signed_at(row, 1),
        z: signed_at(row, 2),
        clock: signed_at(row, 3),
        x_exponent: magnitude_at(row, 4),
        y_exponent: magnitude_at(row, 5),
        z_exponent: magnitude_at(row, 6),
        clock_exponent: magnitude_at(row, 7),
        event: flag_at(row, 8),
        predicted: flag_at(row, 9),
        maneuver: flag_at(row, 10),
        orbit_predicted: flag_at(row, 11),
    }
}

// A note of its stored numbers, after its mark.
#[tactic(auto, unfolding(canon::specs::Canonical::note_shown))]
pub(crate) fn note_shown(note: &[i64]) -> Note
    requires { length note.now ≡ note_width }
    ensures { result ≡ note_shown note.now }
{
    Note {
        x_deviation: magnitude_at(note, 1),
        y_deviation: magnitude_at(note, 2),
        z_deviation: magnitude_at(note, 3),
        clock_deviation: magnitude_at(note, 4),
        xy: signed_at(note, 5),
        xz: signed_at(note, 6),
        xc: signed_at(note, 7),
        yz: signed_at(note, 8),
        yc: signed_at(note, 9),
        zc: signed_at(note, 10),
    }
}
