// What a line does where it stands: the plain line reader.
ghost use Rattle.std.specs.Prelude.{◌≡◌, take, drop};
ghost use Rattle.laws.specs.Texts.{every, is_printable};
ghost use Rattle.layout.specs.Line.{padded};
ghost use Rattle.marks.specs.Marks.{all_new, marked_all};
ghost use Rattle.machine.specs.State.{start_state, seen, known_identifiers, identifiers_in, fit_behind, laid_behind, has_room, identifiers_joined};
ghost use Rattle.machine.specs.Told.{told_verdict, told_read};
ghost use Rattle.machine.specs.Usual.{due_row};
ghost use Rattle.machine.specs.Step.{judged_line, step_of, line_known, line_read, line_identifiers};

use crate::types::{Brought, LineRead, State, Verdict};
use crate::{checks, faults, next};
use header::Rules;
use record::LineKind;
use record::kind::{FIRST_KIND, NO_KIND, POSITION_KIND, SATELLITES_KIND};

// The state before the first line.
pub fn start() -> State
    ensures result { result ≡ start_state }
{
    State {
        due: FIRST_KIND,
        also: NO_KIND,
        lines: 1,
        left: 0,
        comments: 0,
        velocity: false,
        satellites: 0,
        epochs: 0,
        at8: 0,
        gap8: 0,
        interval8: 0,
    }
}

// A line of 80 columns by its kind.
#[tactic(auto, unfolding(crate::specs::Step::judged_line, crate::specs::Step::on_key))]
fn judge_line(
    kind: LineKind,
    rules: Rules,
    state: State,
    identifiers: &[u64],
    line: &[u8; 80],
) -> Verdict
    ensures { result ≡ judged_line kind rules state identifiers.now line.now }
{
    let key = faults::standing_fault(kind, rules, state, identifiers, line);
    if key == 0 {
        return next::after_line(kind, rules, state, line);
    }
    Verdict::Fault {
        number: layout::number_of(key),
        column: layout::column_of(key),
    }
}

// Whether a line has only characters 32 to 126. Of a line that is not too long its 80 columns are tested: so many in any line, which the compiler
// makes use of.
fn is_plain(line: &[u8], columns: &[u8; 80]) -> bool
    requires { columns.now ≡ padded line.now }
    ensures { result ≡ every is_printable line.now }
{
    if line.len() > 80 {
        return layout::is_printable(line);
    }
    layout::is_printable(columns)
}

// Whether a line is the P line that is due, without fault and of the usual kind: most lines of a file are, and no more is asked of them.
fn is_due_row(state: State, identifiers: &[u64], line: &[u8], columns: &[u8; 80]) -> bool
    ensures { result ≡ due_row state identifiers.now line.now columns.now }
{
    let due = (state.due == POSITION_KIND) & (line.len() <= 80);
    due && picture::is_usual(columns)
        && record::rows::satellite_in(columns) == faults::identifier_due(state, identifiers)
}

// What a line does where the header's identifiers so far are `identifiers`: CR in column 61 is 2 at column 61, 81 blanks are 3 at column 81.
pub fn step_line(rules: Rules, state: State, identifiers: &[u64], line: &[u8]) -> Verdict
    ensures result { told_verdict result ≡ told_verdict (step_of rules state identifiers.now line.now) }
{
    let padded = layout::pad(line);
    if is_due_row(state, identifiers, line, &padded) {
        return Verdict::Next(next::after_position(state));
    }
    if !is_plain(line, &padded) {
        return Verdict::Fault {
            number: 2,
            column: checks::first_unprintable(line),
        };
    }
    let kind = record::kind::kind_of(rules, &padded);
    let longest = faults::longest_line(rules, kind);
    if line.len() > longest {
        return Verdict::Fault {
            number: 3,
            column: longest + 1,
        };
    }
    judge_line(kind, rules, state, identifiers, &padded)
}

// Lays numbers into a list behind its first `from`, and tells whether they fit; where they do not nothing changes.
fn lay_behind(list: &mut [u64], from: usize, new: &[u64]) -> bool
    ensures result { result ≡ fit_behind from new.now list.old }
    ensures lent { list.new ≡ laid_behind from new.now list.old }
{
    if list.len() < from || list.len() - from < new.len() {
        return false;
    }
    lines::lay_numbers(&mut list[from..], new);
    true
}

// The identifiers that a `+ ` line brings: the first so many of 17.
fn brought_by(rules: Rules, state: State, line: &[u8]) -> Brought
    ensures { take result.count result.identifiers ≡ identifiers_in rules state (padded line.now) }
{
    let padded = layout::pad(line);
    if state.satellites == 0 {
        let first = record::slots::read_satellites(rules, &padded);
        let identifiers = first.identifiers;
        return Brought {
            identifiers,
            count: first.count as usize,
        };
    }
    let more = record::slots::read_slots(&padded, false, state.left);
    let identifiers = more.values;
    Brought {
        identifiers,
        count: state.left as usize,
    }
}

// Keeps the identifiers that a `+ ` line without fault brings, behind those known, and tells whether there is room for them; where there is none
// nothing changes.
pub fn keep_identifiers(rules: Rules, state: State, identifiers: &mut [u64], line: &[u8]) -> bool
    ensures result { result ≡ has_room rules state identifiers.old (padded line.now) }
    ensures lent { identifiers.new ≡ identifiers_joined rules state identifiers.old (padded line.now) }
{
    let brought = brought_by(rules, state, line);
    let from = faults::seen_so_far(state);
    lay_behind(
        identifiers,
        from,
        faults::front_of(&brought.identifiers, brought.count),
    )
}

// Marks the identifiers that a `+ ` line brings, and tells whether each of them has a mark that was not set before.
pub fn mark_brought(rules: Rules, state: State, marks: &mut [u8], line: &[u8]) -> bool
    ensures result { result ≡ all_new marks.old (identifiers_in rules state (padded line.now)) }
    ensures lent { marks.new ≡ marked_all (identifiers_in rules state (padded line.now)) marks.old }
{
    let brought = brought_by(rules, state, line);
    marks::mark_identifiers(marks, faults::front_of(&brought.identifiers, brought.count))
}

// Marks the identifiers known so far of which the first `marked` are marked already, and tells how many are known.
pub fn mark_known(state: State, identifiers: &[u64], marked: usize, marks: &mut [u8]) -> usize
    ensures result { result ≡ seen state }
    ensures lent { marks.new ≡ marked_all (drop marked (known_identifiers state identifiers.now)) marks.old }
{
    let many = faults::seen_so_far(state);
    let known = faults::front_of(identifiers, many);
    if marked < known.len() {
        marks::mark_identifiers(marks, &known[marked..]);
    }
    many
}

// What the line at a byte does, where the header's identifiers so far are `identifiers`, and where the next begins. No LF from there on: no line.
pub fn line_known(
    rules: Rules,
    bytes: &[u8],
    at: usize,
    state: State,
    identifiers: &[u64],
) -> LineRead
    ensures result { told_read result ≡ told_read (line_known rules bytes.now at state identifiers.now) }
{
    let end = lines::line_end(bytes, at);
    if end >= bytes.len() {
        return LineRead::NoLine;
    }
    match step_line(rules, state, identifiers, &bytes[at..end]) {
        Verdict::Fault { number, column } => LineRead::Fault { number, column },
        Verdict::Finished => LineRead::Finished { at: end + 1 },
        Verdict::Next(next) => LineRead::Next {
            at: end + 1,
            state: next,
        },
    }
}

// The plain line reader: the same, and a `+ ` line leaves its identifiers in `identifiers`. Where a `+ ` line without fault brings more than fit: 12, and
// nothing changes.
pub fn read_line(
    rules: Rules,
    bytes: &[u8],
    at: usize,
    state: State,
    identifiers: &mut [u64],
) -> LineRead
    ensures result { told_read result ≡ told_read (line_read rules bytes.now at state identifiers.old) }
    ensures lent { identifiers.new ≡ line_identifiers rules bytes.now at state identifiers.old }
{
    let found = line_known(rules, bytes, at, state, identifiers);
    let LineRead::Next { at: next, state: _ } = found else {
        return found;
    };
    if state.due != SATELLITES_KIND {
        return found;
    }
    if keep_identifiers(rules, state, identifiers, &bytes[at..next - 1]) {
        return found;
    }
    LineRead::Fault {
        number: 12,
        column: 0,
    }
}
