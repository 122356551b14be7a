// The fault of a line of 80 columns where it stands.
ghost use Rattle.std.specs.Prelude.{◌≡◌, ◌+◌, ◌≤◌, take, ◌==◌};
ghost use Rattle.layout.specs.Fault.{lower, keyed};
ghost use Rattle.layout.specs.Kind.{unless};
ghost use Rattle.record.specs.LineKinds.{told_kind, longest};
ghost use Rattle.machine.specs.State.{seen, identifier_due};
ghost use Rattle.machine.specs.Faults.{second_fault, satellites_fault, characters_fault, floats_fault, epoch_fault, named_fault, record_fault, standing_fault};

use crate::checks;
use crate::types::State;
use header::Rules;
use record::LineKind;
use record::kind::{
    ACCURACIES_KIND, CHARACTERS_KIND, COMMENT_KIND, END_KIND, EPOCH_KIND, FIRST_KIND, FLOATS_KIND,
    INTEGERS_KIND, NO_KIND, POSITION_CORRELATION_KIND, POSITION_KIND, SATELLITES_KIND, SECOND_KIND,
    VELOCITY_CORRELATION_KIND, VELOCITY_KIND,
};

// The key of a fault of this number that names no column.
fn key_alone(number: usize) -> usize
    requires { number ≤ 13 }
    ensures { result ≡ keyed number 0 }
{
    number * 128
}

// The lower of a fault and one of this number that a test not passed earns; it names no column.
fn lower_unless(lowest: usize, passed: bool, number: usize) -> usize
    requires { number ≤ 13 }
    ensures { result ≡ lower lowest (unless passed number 0) }
{
    if passed {
        return lowest;
    }
    layout::lower(lowest, key_alone(number))
}

// How many satellites have had their slot, or their row of this epoch.
pub(crate) fn seen_so_far(state: State) -> usize
    ensures { result ≡ seen state }
{
    state.satellites.saturating_sub(state.left) as usize
}

// The first identifiers, as many as there are.
pub(crate) fn front_of(identifiers: &[u64], n: usize) -> &[u64]
    ensures { result.now ≡ take n identifiers.now }
{
    &identifiers[..n.min(identifiers.len())]
}

// The identifier of the satellite whose row must come.
pub(crate) fn identifier_due(state: State, identifiers: &[u64]) -> u64
    ensures { result ≡ identifier_due state identifiers.now }
{
    identifiers.get(seen_so_far(state)).copied().unwrap_or(0)
}

// Line 2 agrees with the start.
#[tactic(auto, unfolding(crate::specs::Faults::second_fault))]
fn second_fault(state: State, line: &[u8; 80]) -> usize
    ensures { result ≡ second_fault state line.now }
{
    let second = record::opening::read_second(line);
    let agrees = checks::second_agrees(state.at8, second);
    lower_unless(second.fault, agrees, 8)
}

// A `+ ` line: no identifier repeats.
#[tactic(auto, unfolding(crate::specs::Faults::satellites_fault, crate::specs::State::identifiers_in))]
fn satellites_fault(rules: Rules, state: State, identifiers: &[u64], line: &[u8; 80]) -> usize
    ensures { result ≡ satellites_fault rules state identifiers.now line.now }
{
    let known = front_of(identifiers, seen_so_far(state));
    if state.satellites == 0 {
        let first = record::slots::read_satellites(rules, line);
        let named = front_of(&first.identifiers, first.count as usize);
        let repeated = marks::repeats_identifier(known, named);
        return lower_unless(first.fault, !repeated, 8);
    }
    let more = record::slots::read_slots(line, false, state.left);
    let named = front_of(&more.values, state.left as usize);
    let repeated = marks::repeats_identifier(known, named);
    lower_unless(more.fault, !repeated, 8)
}

// The first `%c` agrees with the identifiers; the second has placeholders alone.
#[tactic(auto, unfolding(crate::specs::Faults::characters_fault))]
fn characters_fault(state: State, identifiers: &[u64], line: &[u8; 80]) -> usize
    ensures { result ≡ characters_fault state identifiers.now line.now }
{
    if state.lines != 2 {
        return record::descriptors::characters_fault(line);
    }
    let descriptor = record::descriptors::read_descriptor(line);
    let all = front_of(identifiers, state.satellites as usize);
    let agrees = checks::type_agrees(descriptor.file_type, all);
    lower_unless(descriptor.fault, agrees, 8)
}

// The first `%f` has the bases; the second has placeholders alone.
#[tactic(auto, unfolding(crate::specs::Faults::floats_fault))]
fn floats_fault(state: State, line: &[u8; 80]) -> usize
    ensures { result ≡ floats_fault state line.now }
{
    if state.lines != 2 {
        return record::descriptors::floats_fault(line);
    }
    record::descriptors::read_bases(line).fault
}

// Whether an instant is as much later than another as the gap says.
fn is_later_by(gap8: u64, from8: u64, at8: u64) -> bool
    ensures { result ≡ (at8 == from8 + gap8) }
{
    gap8 <= at8 && at8 - gap8 == from8
}

// An epoch stands at its instant.
#[tactic(auto, unfolding(crate::specs::Faults::epoch_fault))]
fn epoch_fault(state: State, line: &[u8; 80]) -> usize
    ensures { result ≡ epoch_fault state line.now }
{
    let epoch = record::opening::read_epoch(line);
    let stands = is_later_by(state.gap8, state.at8, checks::instant_in(epoch.moment));
    lower_unless(epoch.fault, stands, 9)
}

// A P line, or a V line where `velocity` says so, names the satellite that the header has here.
#[tactic(auto, unfolding(crate::specs::Faults::named_fault))]
fn named_fault(velocity: bool, state: State, identifiers: &[u64], line: &[u8; 80]) -> usize
    ensures { result ≡ named_fault velocity state identifiers.now line.now }
{
    let fault = record::rows::row_fault(line, velocity);
    let named = record::rows::satellite_in(line) == identifier_due(state, identifiers);
    lower_unless(fault, named, 10)
}

// The fault of a line by its kind.
fn record_fault(
    kind: LineKind,
    rules: Rules,
    state: State,
    identifiers: &[u64],
    line: &[u8; 80],
) -> usize
    ensures { result ≡ record_fault kind rules state identifiers.now line.now }
{
    match kind {
        LineKind::Position => named_fault(false, state, identifiers, line),
        LineKind::Velocity => named_fault(true, state, identifiers, line),
        LineKind::PositionCorrelation => record::notes::correlation_fault(line, false),
        LineKind::VelocityCorrelation => record::notes::correlation_fault(line, true),
        LineKind::Epoch => epoch_fault(state, line),
        LineKind::Comment => record::plain::comment_fault(line),
        LineKind::First => record::opening::read_first(rules, line).fault,
        LineKind::Second => second_fault(state, line),
        LineKind::Satellites => satellites_fault(rules, state, identifiers, line),
        LineKind::Accuracies => record::slots::read_slots(line, true, state.left).fault,
        LineKind::Characters => characters_fault(state, identifiers, line),
        LineKind::Floats => floats_fault(state, line),
        LineKind::Integers => record::descriptors::integers_fault(line),
        LineKind::EndOfFile => record::plain::end_fault(line),
        LineKind::Other => key_alone(4),
    }
}

// The number of a kind, in the order of the records: 10 of P.
pub fn kind_number(kind: LineKind) -> u64
    ensures result { result ≡ told_kind kind }
{
    match kind {
        LineKind::Other => NO_KIND,
        LineKind::First => FIRST_KIND,
        LineKind::Second => SECOND_KIND,
        LineKind::Satellites => SATELLITES_KIND,
        LineKind::Accuracies => ACCURACIES_KIND,
        LineKind::Characters => CHARACTERS_KIND,
        LineKind::Floats => FLOATS_KIND,
        LineKind::Integers => INTEGERS_KIND,
        LineKind::Comment => COMMENT_KIND,
        LineKind::Epoch => EPOCH_KIND,
        LineKind::Position => POSITION_KIND,
        LineKind::Velocity => VELOCITY_KIND,
        LineKind::PositionCorrelation => POSITION_CORRELATION_KIND,
        LineKind::VelocityCorrelation => VELOCITY_CORRELATION_KIND,
        LineKind::EndOfFile => END_KIND,
    }
}

// The fault of a line where it stands: 4 where its kind may not stand here.
#[tactic(auto, unfolding(crate::specs::Faults::standing_fault))]
pub(crate) fn standing_fault(
    kind: LineKind,
    rules: Rules,
    state: State,
    identifiers: &[u64],
    line: &[u8; 80],
) -> usize
    ensures { result ≡ standing_fault kind rules state identifiers.now line.now }
{
    let number = kind_number(kind);
    if (number == state.due) | (number == state.also) {
        return record_fault(kind, rules, state, identifiers, line);
    }
    key_alone(4)
}

// The columns that a line of a kind may have.
pub(crate) fn longest_line(rules: Rules, kind: LineKind) -> usize
    ensures { result ≡ longest rules kind }
{
    match kind {
        LineKind::Comment => rules.comment_columns.min(80) as usize,
        _ => 80,
    }
}
