// EP and EV lines, the notes of the P or V line before them: judged first, and their numbers taken when they have no fault.
ghost use Rattle.std.specs.Prelude.{◌≡◌, [], ◌∷◌, ◌+◌, ◌≤◌};
ghost use Rattle.layout.specs.Kind.Kind.{unused};
ghost use Rattle.layout.specs.Layout.{columns, column};
ghost use Rattle.record.specs.Rows.{cut};
ghost use Rattle.record.specs.Notes.{correlation, correlation_symbol, deviation_items, pair_items, correlation_in, note_fault, note_taken, note_of};
ghost use Rattle.record.specs.Steps.{after_all};

use crate::fields::Judge;
use crate::types::{Note, Signed};
use crate::{fields, rows};

// Stands for an unknown deviation or correlation: no field of eight columns has it.
pub const UNNOTED: u64 = 100_000_000;

// The largest deviation of x, y and z, and that of the clock: each means too large.
pub const LARGEST_DEVIATION: u64 = 9_999;

pub const LARGEST_CLOCK_DEVIATION: u64 = 9_999_999;

// The largest magnitude of a correlation, in 10^-7.
pub const LARGEST_CORRELATION: u64 = 9_999_999;

impl<'a> Judge<'a> {
    // Columns 3 to 26.
    #[tactic(auto, unfolding(crate::specs::Steps::after))]
    fn deviations(&mut self)
        ensures { self.new ≡ after_all deviation_items self.old }
    {
        self.unused(3, 4);
        self.exponent(5, 8);
        self.unused(9, 9);
        self.exponent(10, 13);
        self.unused(14, 14);
        self.exponent(15, 18);
        self.unused(19, 19);
        self.exponent(20, 26);
    }

    // An unused column and, after it, a correlation.
    fn correlation_after(&mut self, blank: usize)
        requires { (1 ≤ blank) × (blank ≤ 72) }
        ensures { self.new ≡ after_all (column blank unused ∷ columns (blank + 1) (blank + 8) correlation ∷ []) self.old }
    {
        self.unused(blank, blank);
        self.correlation(blank + 1, blank + 8);
    }

    // Columns 27 to 80.
    fn pairs(&mut self)
        ensures { self.new ≡ after_all pair_items self.old }
    {
        self.correlation_after(27);
        self.correlation_after(36);
        self.correlation_after(45);
        self.correlation_after(54);
        self.correlation_after(63);
        self.correlation_after(72);
    }
}

// The second column of the symbol: EP or EV.
fn letter_of(velocity: bool) -> u8
    ensures { 69 ∷ result ∷ [] ≡ correlation_symbol velocity }
{
    if velocity { b'V' } else { b'P' }
}

// The fault that decides an EP line, or an EV line where `velocity` says so: `EPx` is 5 at column 3, `55  ` in 5 to 8 is 6 at column 5.
pub fn correlation_fault(line: &[u8; 80], velocity: bool) -> usize
    ensures result { result ≡ note_fault velocity line.now }
{
    let mut judge = Judge::of(line);
    judge.symbols(b'E', letter_of(velocity));
    judge.deviations();
    judge.pairs();
    judge.fault
}

// A correlation: its number, or UNNOTED where it is blank.
fn correlation_of(line: &[u8; 80], first: usize, last: usize) -> Signed
    requires { (1 ≤ first) × (first ≤ last) × (last ≤ 80) }
    ensures { result ≡ correlation_in (cut first last line.now) }
{
    let bytes = fields::cut(line, first, last);
    if fields::is_blank(bytes) {
        return Signed {
            negative: false,
            magnitude: UNNOTED,
        };
    }
    field::read::signed_whole(bytes).unwrap_or(Signed {
        negative: false,
        magnitude: 0,
    })
}

// The note of a line of 80 columns.
#[tactic(auto, unfolding(crate::specs::Notes::note_taken))]
fn note_taken(line: &[u8; 80]) -> Note
    ensures { result ≡ note_taken line.now }
{
    Note {
        x_deviation: rows::known_of(line, 5, 8, UNNOTED),
        y_deviation: rows::known_of(line, 10, 13, UNNOTED),
        z_deviation: rows::known_of(line, 15, 18, UNNOTED),
        clock_deviation: rows::known_of(line, 20, 26, UNNOTED),
        xy: correlation_of(line, 28, 35),
        xz: correlation_of(line, 37, 44),
        xc: correlation_of(line, 46, 53),
        yz: correlation_of(line, 55, 62),
        yc: correlation_of(line, 64, 71),
        zc: correlation_of(line, 73, 80),
    }
}

// The note of an EP or EV line which has no fault; a short line counts as padded.
pub fn note_of(line: &[u8]) -> Note
    ensures result { result ≡ note_of line.now }
{
    note_taken(&layout::pad(line))
}
