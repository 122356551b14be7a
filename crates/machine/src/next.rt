// What must stand after a line without fault.
ghost use Rattle.std.specs.Prelude.{◌≡◌};
ghost use Rattle.machine.specs.Next.{expect, allow, leave, line_less, after_first, after_second, after_count, after_identifiers, after_satellites, after_accuracies, comments_due, after_integers, after_epoch, row_due, satellite_done, after_position, next_of};

use crate::checks;
use crate::types::{State, Verdict};
use header::Rules;
use record::kind::{
    ACCURACIES_KIND, CHARACTERS_KIND, COMMENT_KIND, END_KIND, EPOCH_KIND, FLOATS_KIND,
    INTEGERS_KIND, NO_KIND, POSITION_CORRELATION_KIND, POSITION_KIND, SATELLITES_KIND, SECOND_KIND,
    VELOCITY_CORRELATION_KIND, VELOCITY_KIND,
};
use record::{First, LineKind};

// Lines of this kind must come, so many of them.
fn expected(due: u64, lines: u64, state: State) -> State
    ensures { result ≡ expect due lines state }
{
    State {
        due,
        also: NO_KIND,
        lines,
        ..state
    }
}

// This kind may stand as well.
fn with_also(also: u64, state: State) -> State
    ensures { result ≡ allow also state }
{
    State { also, ..state }
}

// Of so many satellites a slot or a row is still to come.
fn with_left(left: u64, state: State) -> State
    ensures { result ≡ leave left state }
{
    State { left, ..state }
}

// One line less of a kind, and after the last of them so many of the next kind.
fn line_less(next: u64, many: u64, state: State) -> State
    ensures { result ≡ line_less next many state }
{
    let lines = state.lines.saturating_sub(1);
    if lines == 0 {
        return expected(next, many, state);
    }
    expected(state.due, lines, state)
}

// Mode, start and epochs are known; `##` must come.
#[tactic(auto, unfolding(crate::specs::Next::after_first))]
fn after_first(first: First, state: State) -> State
    ensures { result ≡ after_first first state }
{
    State {
        due: SECOND_KIND,
        also: NO_KIND,
        lines: 1,
        velocity: first.mode == b'V',
        satellites: 0,
        epochs: first.epochs,
        at8: checks::instant_in(first.start),
        gap8: 0,
        ..state
    }
}

// The interval is known; the first `+ ` line must come.
#[tactic(auto, unfolding(crate::specs::Next::after_second))]
fn after_second(interval8: u64, state: State) -> State
    ensures { result ≡ after_second interval8 state }
{
    State {
        due: SATELLITES_KIND,
        also: NO_KIND,
        interval8,
        ..state
    }
}

// The number of satellites is known, and with it that of the `+ ` lines.
#[tactic(auto, unfolding(crate::specs::Next::after_count))]
fn after_count(n: u64, state: State) -> State
    ensures { result ≡ after_count n state }
{
    State {
        due: SATELLITES_KIND,
        also: NO_KIND,
        lines: header::slot_lines(n) - 1,
        left: n.saturating_sub(17),
        satellites: n,
        ..state
    }
}

// A further `+ ` line: after the last as many `++` lines.
#[tactic(auto, unfolding(crate::specs::Next::after_identifiers))]
fn after_identifiers(state: State) -> State
    ensures { result ≡ after_identifiers state }
{
    let lines = state.lines.saturating_sub(1);
    if lines == 0 {
        let many = header::slot_lines(state.satellites);
        return with_left(state.satellites, expected(ACCURACIES_KIND, many, state));
    }
    with_left(
        state.left.saturating_sub(17),
        expected(SATELLITES_KIND, lines, state),
    )
}

// A `++` line: after the last two `%c`.
#[tactic(auto, unfolding(crate::specs::Next::after_accuracies))]
fn after_accuracies(state: State) -> State
    ensures { result ≡ after_accuracies state }
{
    with_left(
        state.left.saturating_sub(17),
        line_less(CHARACTERS_KIND, 2, state),
    )
}

// So many comments must come, and so many may.
#[tactic(auto, unfolding(crate::specs::Next::comments_due))]
fn comments_due(needed: u64, allowed: u64, state: State) -> State
    ensures { result ≡ comments_due needed allowed state }
{
    let next = State {
        comments: allowed,
        ..state
    };
    if needed != 0 {
        return expected(COMMENT_KIND, needed, next);
    }
    if allowed == 0 {
        return expected(EPOCH_KIND, needed, next);
    }
    with_also(COMMENT_KIND, expected(EPOCH_KIND, needed, next))
}

// A `%i` line: after the second the comments.
#[tactic(auto, unfolding(crate::specs::Next::after_integers))]
fn after_integers(rules: Rules, state: State) -> State
    ensures { result ≡ after_integers rules state }
{
    let lines = state.lines.saturating_sub(1);
    if lines == 0 {
        return comments_due(rules.fewest_comments, rules.most_comments, state);
    }
    expected(INTEGERS_KIND, lines, state)
}

// An epoch less; the row of the first satellite must come, and the next epoch an interval later.
#[tactic(auto, unfolding(crate::specs::Next::after_epoch))]
fn after_epoch(at8: u64, state: State) -> State
    ensures { result ≡ after_epoch at8 state }
{
    State {
        due: POSITION_KIND,
        also: NO_KIND,
        lines: 1,
        left: state.satellites,
        epochs: state.epochs.saturating_sub(1),
        at8,
        gap8: state.interval8,
        ..state
    }
}

// The row of the next satellite, or the next epoch, or EOF.
fn row_due(left: u64, epochs: u64) -> u64
    ensures { result ≡ row_due left epochs }
{
    if left != 0 {
        return POSITION_KIND;
    }
    if epochs == 0 { END_KIND } else { EPOCH_KIND }
}

// The rows of a satellite are read; the correlation record of the last of them may stand.
#[tactic(auto, unfolding(crate::specs::Next::satellite_done))]
fn satellite_done(also: u64, state: State) -> State
    ensures { result ≡ satellite_done also state }
{
    let left = state.left.saturating_sub(1);
    State {
        due: row_due(left, state.epochs),
        also,
        lines: 1,
        left,
        ..state
    }
}

// A P line: in mode V the same satellite's V must come; one EP may stand.
#[tactic(auto, unfolding(crate::specs::Next::after_position))]
pub(crate) fn after_position(state: State) -> State
    ensures { result ≡ after_position state }
{
    if state.velocity {
        return State {
            due: VELOCITY_KIND,
            also: POSITION_CORRELATION_KIND,
            lines: 1,
            ..state
        };
    }
    satellite_done(POSITION_CORRELATION_KIND, state)
}

// A `+ ` line: the first says how many satellites there are.
#[tactic(auto, unfolding(crate::specs::Next::after_satellites))]
fn after_satellites(rules: Rules, state: State, line: &[u8; 80]) -> State
    ensures { result ≡ after_satellites rules state line.now }
{
    if state.satellites == 0 {
        let first = record::slots::read_satellites(rules, line);
        return after_count(first.count, state);
    }
    after_identifiers(state)
}

// What a line without fault does.
pub(crate) fn after_line(kind: LineKind, rules: Rules, state: State, line: &[u8; 80]) -> Verdict
    ensures { result ≡ next_of kind rules state line.now }
{
    match kind {
        LineKind::Position => Verdict::Next(after_position(state)),
        LineKind::Velocity => Verdict::Next(satellite_done(VELOCITY_CORRELATION_KIND, state)),
        LineKind::PositionCorrelation | LineKind::VelocityCorrelation => {
            Verdict::Next(with_also(NO_KIND, state))
        }
        LineKind::Epoch => {
            let epoch = record::opening::read_epoch(line);
            Verdict::Next(after_epoch(checks::instant_in(epoch.moment), state))
        }
        LineKind::Comment => {
            Verdict::Next(comments_due(
                state.lines.saturating_sub(1),
                state.comments.saturating_sub(1),
                state,
            ))
        }
        LineKind::First => Verdict::Next(after_first(
            record::opening::read_first(rules, line),
            state,
        )),
        LineKind::Second => {
            let second = record::opening::read_second(line);
            Verdict::Next(after_second(second.interval8, state))
        }
        LineKind::Satellites => Verdict::Next(after_satellites(rules, state, line)),
        LineKind::Accuracies => Verdict::Next(after_accuracies(state)),
        LineKind::Characters => Verdict::Next(line_less(FLOATS_KIND, 2, state)),
        LineKind::Floats => Verdict::Next(line_less(INTEGERS_KIND, 2, state)),
        LineKind::Integers => Verdict::Next(after_integers(rules, state)),
        LineKind::EndOfFile => Verdict::Finished,
        LineKind::Other => Verdict::Next(state),
    }
}
