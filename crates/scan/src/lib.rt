// A file at the front of some bytes, judged line by line.
#![tactic(auto)]

ghost use Rattle.std.specs.Prelude.{◌≡◌, ◌+◌, ◌<◌, ◌^◌, length};
ghost use Rattle.record.specs.LineKinds.{satellites_kind};
ghost use Rattle.marks.specs.Marks.{Covers};
ghost use Rattle.machine.specs.State.{known_identifiers};
ghost use Rattle.file.specs.Kinds.{kind_in};
ghost use Rattle.scan.specs.Front as front;
ghost use Rattle.scan.specs.Told.{told_front};
ghost use Rattle.scan.specs.Looking.{Enough};
ghost use Rattle.scan.specs.Run.{nothing_seen, counted, scan_of, whole_front};

use header::{Header, Rules};
use machine::{LineRead, State};
use record::kind::{COMMENT_KIND, NO_KIND, POSITION_KIND, SATELLITES_KIND, VELOCITY_KIND};

// So few satellites are compared in less time than their lines are read once more to be marked.
const FEW: u64 = 51;

// What has been read so far: lines, bytes, comments, and rows of both kinds.
#[derive(Clone, Copy)]
pub struct Tally {
    pub lines: u64,
    pub end: usize,
    pub comments: u64,
    pub rows: u64,
}

// The refusal of a line, with its number, its line and its column (0 for none).
#[derive(Clone, Copy)]
pub struct Refusal {
    pub number: usize,
    pub line: u64,
    pub column: usize,
}

// Before the first line.
fn nothing_seen() -> Tally
    ensures { result ≡ nothing_seen }
{
    Tally {
        lines: 0,
        end: 0,
        comments: 0,
        rows: 0,
    }
}

// The number of a line's kind. Most lines of a file are P, which the first column tells.
fn kind_told(rules: Rules, line: &[u8]) -> u64
    ensures { result ≡ kind_in rules line.now }
{
    if line.first() == Some(&b'P') {
        return POSITION_KIND;
    }
    file::kind_in(rules, line)
}

// One line more, with its LF.
fn count_line(rules: Rules, tally: Tally, line: &[u8]) -> Tally
    requires { (tally.lines + 1 < 2 ^ 64) × (tally.comments + 1 < 2 ^ 64) × (tally.rows + 1 < 2 ^ 64) × (tally.end + length line.now + 1 < 2 ^ 64) }
    ensures { result ≡ counted rules tally line.now }
{
    let kind = kind_told(rules, line);
    let is_comment = kind == COMMENT_KIND;
    let is_row = (kind == POSITION_KIND) | (kind == VELOCITY_KIND);
    Tally {
        lines: tally.lines + 1,
        end: tally.end + line.len() + 1,
        comments: tally.comments + u64::from(is_comment),
        rows: tally.rows + u64::from(is_row),
    }
}

// The refusal of a line, where a file would stand.
fn refused(number: usize, line: u64, column: usize) -> Result<Tally, Refusal>
    ensures { result ≡ front.Refused number line column }
{
    Err(Refusal {
        number,
        line,
        column,
    })
}

// How many of the identifiers must be looked at to judge the line at a byte, where a `+ ` line is due and the known ones are marked: none where its own
// have marks that were not set before. They are marked too. A few satellites are compared.
fn looked_at(
    rules: Rules,
    bytes: &[u8],
    at: usize,
    state: State,
    identifiers: &[u64],
    marks: &mut [u8],
) -> usize
    requires { (state.due ≡ satellites_kind) × Covers (known_identifiers state identifiers.now) marks.old }
    ensures result { Enough rules bytes.now at state identifiers.now result }
    ensures lent { Covers (known_identifiers state identifiers.now) marks.new }
{
    if state.satellites <= FEW {
        return identifiers.len();
    }
    if state.also != NO_KIND {
        return identifiers.len();
    }
    let end = lines::line_end(bytes, at);
    if end >= bytes.len() {
        return identifiers.len();
    }
    if machine::mark_brought(rules, state, marks, &bytes[at..end]) {
        return 0;
    }
    identifiers.len()
}

// The file at the front of the bytes, judged line by line: no bytes are refused with 1 at line 1.
pub fn scan_front(rules: Rules, bytes: &[u8]) -> Result<Tally, Refusal>
    ensures result { told_front result ≡ told_front (scan_of rules bytes.now) }
{
    let mut identifiers = [0u64; Header::MAX_SATELLITES as usize];
    let mut marks = [0u8; marks::MARKS];
    let mut marked: usize = 0;
    let mut state = machine::start();
    let mut tally = nothing_seen();
    loop {
        let at = tally.end;
        let line = tally.lines + 1;
        let mut many = Header::MAX_SATELLITES as usize;
        if state.due == SATELLITES_KIND {
            marked = machine::mark_known(state, &identifiers, marked, &mut marks);
            many = looked_at(rules, bytes, at, state, &identifiers, &mut marks);
        }
        let all = &identifiers[..];
        match machine::line_known(rules, bytes, at, state, &all[0..many]) {
            LineRead::NoLine => {
                return refused(1, line, 0);
            }
            LineRead::Fault { number, column } => {
                return refused(number, line, column);
            }
            LineRead::Finished { at: end } => {
                return Ok(count_line(rules, tally, &bytes[at..end - 1]));
            }
            LineRead::Next {
                at: end,
                state: next,
            } => {
                let text = &bytes[at..end - 1];
                if state.due == SATELLITES_KIND {
                    machine::keep_identifiers(rules, state, &mut identifiers, text);
                }
                tally = count_line(rules, tally, text);
                state = next;
            }
        }
    }
}

// The file that the bytes are from first to last: bytes after its EOF line are refused with 11 at the line after it.
pub fn scan_whole(rules: Rules, bytes: &[u8]) -> Result<Tally, Refusal>
    ensures result { told_front result ≡ told_front (whole_front (length bytes.now) (scan_of rules bytes.now)) }
{
    let tally = scan_front(rules, bytes)?;
    if tally.end < bytes.len() {
        return refused(11, tally.lines + 1, 0);
    }
    Ok(tally)
}
