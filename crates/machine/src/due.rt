// What must stand at a byte of a file, for those who correct a line that was refused.
ghost use Rattle.std.specs.Prelude.{◌≡◌, drop, ◌==◌};
ghost use Rattle.layout.specs.Fault.{clean};
ghost use Rattle.lines.specs.Lines.{lines_of};
ghost use Rattle.machine.specs.Faults.{slots_fault};
ghost use Rattle.machine.specs.Due.{instant_due, satellite_due, again_at, due_at};

use crate::types::{Due, LineRead, State};
use crate::{faults, step};
use header::Rules;
use record::kind::{EPOCH_KIND, POSITION_KIND, SATELLITES_KIND, VELOCITY_KIND};

// The instant at which the epoch that is due must stand.
#[tactic(auto, unfolding(crate::specs::Due::instant_due))]
fn instant_due(state: State) -> u64
    ensures { result ≡ instant_due state }
{
    if state.due == EPOCH_KIND {
        state.at8.wrapping_add(state.gap8)
    } else {
        0
    }
}

// The satellite that the row that is due must name.
#[tactic(auto, unfolding(crate::specs::Due::satellite_due))]
fn satellite_due(state: State, identifiers: &[u64]) -> u64
    ensures { result ≡ satellite_due state identifiers.now }
{
    if (state.due == POSITION_KIND) | (state.due == VELOCITY_KIND) {
        faults::identifier_due(state, identifiers)
    } else {
        0
    }
}

// Whether the slots of a `+ ` line, those after the last satellite too, have no fault by themselves.
fn slots_clean(rules: Rules, state: State, line: &[u8; 80]) -> bool
    ensures { result ≡ (slots_fault rules state line.now == clean) }
{
    if state.satellites == 0 {
        let first = record::slots::read_satellites(rules, line);
        return first.fault == 0;
    }
    let more = record::slots::read_slots(line, false, state.left);
    more.fault == 0
}

// Whether the line at a byte, where a `+ ` line is due, is refused with 8 though its slots are right: it names an identifier again.
fn names_again(rules: Rules, bytes: &[u8], at: usize, state: State, identifiers: &[u64]) -> bool
    ensures { result ≡ again_at rules state identifiers.now (lines_of (drop at bytes.now)) }
{
    if state.due != SATELLITES_KIND {
        return false;
    }
    let end = lines::line_end(bytes, at);
    if end >= bytes.len() {
        return false;
    }
    let LineRead::Fault { number, column: _ } = step::line_known(
        rules,
        bytes,
        at,
        state,
        identifiers,
    ) else {
        return false;
    };
    if number != 8 {
        return false;
    }
    let padded = layout::pad(&bytes[at..end]);
    slots_clean(rules, state, &padded)
}

// What must stand at a byte, where the state and the identifiers are those of the lines before it.
#[tactic(auto, unfolding(crate::specs::Due::due_at))]
pub fn due_at(rules: Rules, bytes: &[u8], at: usize, state: State, identifiers: &[u64]) -> Due
    ensures result { result ≡ due_at rules bytes.now at state identifiers.now }
{
    Due {
        kind: state.due,
        also: state.also,
        instant8: instant_due(state),
        identifier: satellite_due(state, identifiers),
        repeats: names_again(rules, bytes, at, state, identifiers),
    }
}
