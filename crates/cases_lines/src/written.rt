// A record by its values, which may be any, written into a room that held a mark in each byte.
use crate::kinds::Kind;
use crate::{kinds, print, words};
use header::{Bases, Moment, Rules, Texts};
use record::{BaseLine, Descriptor, Epoch, First, Note, Row, Satellites, Second, Slots};

// The most bytes that a room has.
const MOST: usize = 100;

// How many bytes stand before the numbers of line 1: the mode, the four texts and a blank.
const FRONT: usize = 19;

// Year, month, day, hour, minute, and the seconds in 10^-8.
fn moment(s: &[u8]) -> Moment {
    Moment {
        year: words::number(s, 0),
        month: words::number(s, 1),
        day: words::number(s, 2),
        hour: words::number(s, 3),
        minute: words::number(s, 4),
        second8: words::number(s, 5),
    }
}

// The texts of line 1, of five, five, three and four bytes, after the mode.
fn texts(s: &[u8]) -> Texts {
    Texts {
        data_used: words::text(s, 1),
        coordinates: words::text(s, 6),
        orbit: words::text(s, 11),
        agency: words::text(s, 14),
    }
}

// Line 1: the mode and the texts, then the start and the epochs.
fn first(rules: Rules, s: &[u8], out: &mut [u8]) -> usize {
    if s.len() < FRONT {
        return 0;
    }
    let numbers = &s[FRONT..];
    let f = First {
        fault: 0,
        mode: words::byte(s, 0),
        start: moment(numbers),
        epochs: words::number(numbers, 6),
        texts: texts(s),
    };
    draw::opening::write_first(rules, f, out)
}

// Line 2: week, seconds of week, interval, MJD, fraction of day.
fn second(s: &[u8], out: &mut [u8]) -> usize {
    let two = Second {
        fault: 0,
        week: words::number(s, 0),
        seconds8: words::number(s, 1),
        interval8: words::number(s, 2),
        mjd: words::number(s, 3),
        fraction13: words::number(s, 4),
    };
    draw::opening::write_second(two, out)
}

// The first `+ ` line: the number of satellites, then identifiers.
fn satellites(rules: Rules, s: &[u8], out: &mut [u8]) -> usize {
    let line = Satellites {
        fault: 0,
        count: words::number(s, 0),
        identifiers: words::slots(s),
    };
    draw::slots::write_satellites(rules, line, out)
}

// A further `+ ` line, or a `++` line: how many satellites are left, then identifiers or exponents.
fn more(s: &[u8], accuracies: bool, out: &mut [u8]) -> usize {
    let line = Slots {
        fault: 0,
        values: words::slots(s),
    };
    draw::slots::write_slots(line, accuracies, words::number(s, 0), out)
}

// The first `%c` line: the letter of the file type and three bytes of the time system.
fn descriptor(s: &[u8], out: &mut [u8]) -> usize {
    let line = Descriptor {
        fault: 0,
        file_type: words::byte(s, 0),
        time_system: words::text(s, 1),
    };
    draw::descriptors::write_descriptor(line, out)
}

// The first `%f` line: both bases.
fn bases(s: &[u8], out: &mut [u8]) -> usize {
    let line = BaseLine {
        fault: 0,
        bases: Bases {
            place: words::number(s, 0),
            clock: words::number(s, 1),
        },
    };
    draw::descriptors::write_bases(line, out)
}

// An epoch line.
fn epoch(s: &[u8], out: &mut [u8]) -> usize {
    let line = Epoch {
        fault: 0,
        moment: moment(s),
    };
    draw::opening::write_epoch(line, out)
}

// A P or V line: identifier, x, y, z, clock, their exponents, and the flags as 0 or 1.
fn row(s: &[u8], velocity: bool, out: &mut [u8]) -> usize {
    let line = Row {
        satellite: words::number(s, 0),
        x: words::signed(s, 1),
        y: words::signed(s, 2),
        z: words::signed(s, 3),
        clock: words::signed(s, 4),
        x_exponent: words::number(s, 5),
        y_exponent: words::number(s, 6),
        z_exponent: words::number(s, 7),
        clock_exponent: words::number(s, 8),
        event: words::mark(s, 9),
        predicted: words::mark(s, 10),
        maneuver: words::mark(s, 11),
        orbit_predicted: words::mark(s, 12),
    };
    draw::rows::write_row(line, velocity, out)
}

// An EP or EV line: four deviations, then six correlations.
fn note(s: &[u8], velocity: bool, out: &mut [u8]) -> usize {
    let line = Note {
        x_deviation: words::number(s, 0),
        y_deviation: words::number(s, 1),
        z_deviation: words::number(s, 2),
        clock_deviation: words::number(s, 3),
        xy: words::signed(s, 4),
        xz: words::signed(s, 5),
        xc: words::signed(s, 6),
        yz: words::signed(s, 7),
        yc: words::signed(s, 8),
        zc: words::signed(s, 9),
    };
    draw::notes::write_note(line, velocity, out)
}

// The record of a kind, and what its writer answers; 0 for no kind.
fn laid(kind: Kind, rules: Rules, s: &[u8], out: &mut [u8]) -> usize {
    match kind {
        Kind::First => first(rules, s, out),
        Kind::Second => second(s, out),
        Kind::Satellites => satellites(rules, s, out),
        Kind::MoreSatellites => more(s, false, out),
        Kind::Accuracies => more(s, true, out),
        Kind::Descriptor => descriptor(s, out),
        Kind::Characters => draw::descriptors::write_characters(out),
        Kind::Bases => bases(s, out),
        Kind::Floats => draw::descriptors::write_floats(out),
        Kind::Integers => draw::descriptors::write_integers(out),
        Kind::Comment => draw::plain::write_comment(s, out),
        Kind::Epoch => epoch(s, out),
        Kind::Position => row(s, false, out),
        Kind::Velocity => row(s, true, out),
        Kind::PositionNote => note(s, false, out),
        Kind::VelocityNote => note(s, true, out),
        Kind::End => draw::plain::write_end(out),
        Kind::Asked => 0,
    }
}

// The record of the kind that its letter says, written into all of `out`, and what came of it.
fn into(rt: &impl Print, letter: u8, s: &[u8], out: &mut [u8]) {
    let n = Kind::try_from(letter).map_or(0, |kind| laid(kind, kinds::rules_of(letter), s, out));
    print::room(rt, out, n);
}

// A case: the kind letter, the mark and the values. The record is written into as many of the bytes that hold the mark as the room has.
pub(crate) fn answer(rt: &impl Print, room: u64, case: &[u8]) {
    let [letter, mark, values @ ..] = case else {
        return;
    };
    let mut out = [*mark; MOST];
    let n = (room as usize).min(out.len());
    into(rt, *letter, values, &mut out[..n]);
}
