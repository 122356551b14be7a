// A walker over the lines of a file: it holds the file's bytes and its spot. The identifiers of the header are lent at each step. Each function over
// a walker takes it apart and calls the plain line reader; `after_lines` stands above them and has plain parameters.
#![tactic(auto)]

ghost use Rattle.std.specs.Prelude.{◌≡◌};
ghost use Rattle.header.specs.Versions.{rules_in};
ghost use Rattle.machine.specs.Step.{line_read, line_identifiers};
ghost use Rattle.machine.specs.Told.{told_read};
ghost use Rattle.line_walk.specs.Spots.{first_spot, gone_to, spot_after, spots_after, identifiers_past};

use header::Rules;
use machine::{LineRead, State};

// Between two lines of a file: the byte at which the next line begins, and what must stand there.
#[repr(C)]
#[derive(Clone, Copy)]
pub struct Spot {
    pub at: usize,
    pub state: State,
}

// A file, and a spot in it.
#[derive(Clone, Copy)]
pub struct Walker<'a> {
    pub file: &'a [u8],
    pub spot: Spot,
}

// Before the first line of a file.
pub fn first_spot() -> Spot
    ensures result { result ≡ first_spot }
{
    Spot {
        at: 0,
        state: machine::start(),
    }
}

// The plain line reader at a spot: what the line there does, and where the next begins; a `+ ` line leaves its identifiers in `identifiers`.
pub fn read_at<'a, 'b>(file: &'a [u8], spot: Spot, identifiers: &'b mut [u64]) -> LineRead
    ensures result { told_read result ≡ told_read (line_read (rules_in file.now) file.now spot.at spot.state identifiers.old) }
    ensures lent { identifiers.new ≡ line_identifiers (rules_in file.now) file.now spot.at spot.state identifiers.old }
{
    let at = spot.at;
    let state = spot.state;
    machine::read_line(Rules::told_by(file), file, at, state, identifiers)
}

// The spot that what was read at a spot leads to: the next where the line goes on; the same where no line is left, where it is refused and where it ends
// the file.
pub fn gone_to(found: LineRead, spot: Spot) -> Spot
    ensures result { result ≡ gone_to found spot }
{
    match found {
        LineRead::Next { at, state } => Spot { at, state },
        LineRead::NoLine => spot,
        LineRead::Fault {
            number: _,
            column: _,
        } => spot,
        LineRead::Finished { at: _ } => spot,
    }
}

// The spot after that line; the same spot where no line is left, where the line is refused and where it ends the file.
pub fn spot_after<'a, 'b>(file: &'a [u8], spot: Spot, identifiers: &'b mut [u64]) -> Spot
    ensures result { result ≡ spot_after (rules_in file.now) file.now identifiers.old spot }
    ensures lent { identifiers.new ≡ line_identifiers (rules_in file.now) file.now spot.at spot.state identifiers.old }
{
    gone_to(read_at(file, spot, identifiers), spot)
}

// A walker at a spot of a file.
pub fn new<'a>(file: &'a [u8], spot: Spot) -> Walker<'a>
    ensures result { (result.file ≡ file.entry) × (result.spot ≡ spot) }
{
    Walker { file, spot }
}

// What the line at the walker's spot does.
pub fn next<'a, 'b>(w: Walker<'a>, identifiers: &'b mut [u64]) -> LineRead
    ensures result { told_read result ≡ told_read (line_read (rules_in w.entry.file.now) w.entry.file.now w.entry.spot.at w.entry.spot.state identifiers.old) }
    ensures lent { identifiers.new ≡ line_identifiers (rules_in w.entry.file.now) w.entry.file.now w.entry.spot.at w.entry.spot.state identifiers.old }
{
    read_at(w.file, w.spot, identifiers)
}

// The walker after that line: the same file, and the next spot.
pub fn moved<'a, 'b>(w: Walker<'a>, identifiers: &'b mut [u64]) -> Walker<'a>
    ensures result { (result.file ≡ w.entry.file) × (result.spot ≡ spot_after (rules_in w.entry.file.now) w.entry.file.now identifiers.old w.entry.spot) }
    ensures lent { identifiers.new ≡ line_identifiers (rules_in w.entry.file.now) w.entry.file.now w.entry.spot.at w.entry.spot.state identifiers.old }
{
    let spot = spot_after(w.file, w.spot, identifiers);
    Walker { file: w.file, spot }
}

// The spot alone.
pub fn spot_of<'a>(w: Walker<'a>) -> Spot
    ensures result { result ≡ w.entry.spot }
{
    w.spot
}

// A walk: the spot so many lines further, and the identifiers that they bring.
pub fn after_lines<'a, 'b>(
    file: &'a [u8],
    spot: Spot,
    lines: usize,
    identifiers: &'b mut [u64],
) -> Spot
    ensures result { result ≡ spots_after (rules_in file.now) file.now identifiers.old spot lines }
    ensures lent { identifiers.new ≡ identifiers_past (rules_in file.now) file.now identifiers.old spot lines }
{
    let mut w = new(file, spot);
    for _line in 0..lines {
        w = moved(w, identifiers);
    }
    spot_of(w)
}
