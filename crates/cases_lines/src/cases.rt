// A line by its kind and version: judged, read, and written again into 81 bytes that held a mark in each. A line that has a fault is read and written
// too, as the readers and writers take any line and any value; it is not shown.
ghost use Rattle.std.specs.Prelude.{◌≡◌};
ghost use Rattle.record.specs.LineKinds.{told_kind};

use crate::kinds::Kind;
use crate::{kinds, print};
use header::Rules;
use record::kind::{
    ACCURACIES_KIND, CHARACTERS_KIND, COMMENT_KIND, END_KIND, EPOCH_KIND, FIRST_KIND, FLOATS_KIND,
    INTEGERS_KIND, NO_KIND, POSITION_CORRELATION_KIND, POSITION_KIND, SATELLITES_KIND, SECOND_KIND,
    VELOCITY_CORRELATION_KIND, VELOCITY_KIND,
};
use record::{LineKind, descriptors, kind, notes, opening, plain, rows, slots};

// Line 1.
fn first(rt: &impl Print, rules: Rules, line: &[u8; 80]) {
    let read = opening::read_first(rules, line);
    print::written(
        rt,
        read.fault,
        |out| draw::opening::write_first(rules, read, out),
    );
}

// Line 2.
fn second(rt: &impl Print, line: &[u8; 80]) {
    let read = opening::read_second(line);
    print::written(rt, read.fault, |out| draw::opening::write_second(read, out));
}

// The first `+ ` line.
fn satellites(rt: &impl Print, rules: Rules, line: &[u8; 80]) {
    let read = slots::read_satellites(rules, line);
    print::written(
        rt,
        read.fault,
        |out| draw::slots::write_satellites(rules, read, out),
    );
}

// A further `+ ` line, or a `++` line where `accuracies` says so.
fn more(rt: &impl Print, line: &[u8; 80], accuracies: bool, left: u64) {
    let read = slots::read_slots(line, accuracies, left);
    print::written(
        rt,
        read.fault,
        |out| draw::slots::write_slots(read, accuracies, left, out),
    );
}

// The first `%c` line.
fn descriptor(rt: &impl Print, line: &[u8; 80]) {
    let read = descriptors::read_descriptor(line);
    print::written(
        rt,
        read.fault,
        |out| draw::descriptors::write_descriptor(read, out),
    );
}

// The first `%f` line.
fn bases(rt: &impl Print, line: &[u8; 80]) {
    let read = descriptors::read_bases(line);
    print::written(
        rt,
        read.fault,
        |out| draw::descriptors::write_bases(read, out),
    );
}

// A comment, of which columns 4 to 80 are the text.
fn comment(rt: &impl Print, line: &[u8; 80]) {
    print::written(
        rt,
        plain::comment_fault(line),
        |out| draw::plain::write_comment(&line[3..], out),
    );
}

// An epoch line.
fn epoch(rt: &impl Print, line: &[u8; 80]) {
    let read = opening::read_epoch(line);
    print::written(rt, read.fault, |out| draw::opening::write_epoch(read, out));
}

// A P line, or a V line where `velocity` says so.
fn row(rt: &impl Print, line: &[u8; 80], velocity: bool) {
    let read = rows::row_of(line, velocity);
    print::written(
        rt,
        rows::row_fault(line, velocity),
        |out| draw::rows::write_row(read, velocity, out),
    );
}

// An EP line, or an EV line where `velocity` says so.
fn note(rt: &impl Print, line: &[u8; 80], velocity: bool) {
    let read = notes::note_of(line);
    print::written(
        rt,
        notes::correlation_fault(line, velocity),
        |out| draw::notes::write_note(read, velocity, out),
    );
}

// A number for each kind, in the order of the records; 0 for no kind.
fn kind_number(k: LineKind) -> u64
    ensures { result ≡ told_kind k }
{
    match k {
        LineKind::Other => NO_KIND,
        LineKind::First => FIRST_KIND,
        LineKind::Second => SECOND_KIND,
        LineKind::Satellites => SATELLITES_KIND,
        LineKind::Accuracies => ACCURACIES_KIND,
        LineKind::Characters => CHARACTERS_KIND,
        LineKind::Floats => FLOATS_KIND,
        LineKind::Integers => INTEGERS_KIND,
        LineKind::Comment => COMMENT_KIND,
        LineKind::Epoch => EPOCH_KIND,
        LineKind::Position => POSITION_KIND,
        LineKind::Velocity => VELOCITY_KIND,
        LineKind::PositionCorrelation => POSITION_CORRELATION_KIND,
        LineKind::VelocityCorrelation => VELOCITY_CORRELATION_KIND,
        LineKind::EndOfFile => END_KIND,
    }
}

// The kind of a line.
fn which(rt: &impl Print, rules: Rules, line: &[u8; 80]) {
    let _ = println!(rt; "kind {}", kind_number(kind::kind_of(rules, line)));
}

// The line judged, read and written as one of a kind.
fn told(rt: &impl Print, kind: Kind, rules: Rules, left: u64, line: &[u8; 80]) {
    match kind {
        Kind::First => first(rt, rules, line),
        Kind::Second => second(rt, line),
        Kind::Satellites => satellites(rt, rules, line),
        Kind::MoreSatellites => more(rt, line, false, left),
        Kind::Accuracies => more(rt, line, true, left),
        Kind::Descriptor => descriptor(rt, line),
        Kind::Characters => print::written(
            rt,
            descriptors::characters_fault(line),
            draw::descriptors::write_characters,
        ),
        Kind::Bases => bases(rt, line),
        Kind::Floats => print::written(
            rt,
            descriptors::floats_fault(line),
            draw::descriptors::write_floats,
        ),
        Kind::Integers => print::written(
            rt,
            descriptors::integers_fault(line),
            draw::descriptors::write_integers,
        ),
        Kind::Comment => comment(rt, line),
        Kind::Epoch => epoch(rt, line),
        Kind::Position => row(rt, line, false),
        Kind::Velocity => row(rt, line, true),
        Kind::PositionNote => note(rt, line, false),
        Kind::VelocityNote => note(rt, line, true),
        Kind::End => print::written(rt, plain::end_fault(line), draw::plain::write_end),
        Kind::Asked => which(rt, rules, line),
    }
}

// The line as one of the kind that its letter says.
pub(crate) fn answer(rt: &impl Print, letter: u8, left: u64, line: &[u8; 80]) {
    match Kind::try_from(letter) {
        Ok(kind) => told(rt, kind, kinds::rules_of(letter), left, line),
        Err(_) => {
            let _ = println!(rt; "?");
        }
    }
}
