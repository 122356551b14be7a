// P and V lines: judged first, and their rows taken when they have no fault.
ghost use Rattle.std.specs.Prelude.{◌≡◌, true, ◌≤◌};
ghost use Rattle.field.specs.Read.{exponent_of};
ghost use Rattle.layout.specs.Kind.{identifier_code, maybe_held, unnoted};
ghost use Rattle.record.specs.Rows.{body_items, flag_items, row_fault, cut, signed_in, clock_field_in, flag_in, row_taken, row_of, bare_width, note_width, row_width, both_width};
ghost use Rattle.record.specs.Plain.{comment_width};
ghost use Rattle.record.specs.Notes.{largest_correlation};
ghost use Rattle.record.specs.Steps.{after_all};

use crate::fields;
use crate::fields::Judge;
use crate::notes::{LARGEST_CORRELATION, UNNOTED};
use crate::plain::COMMENT_WIDTH;
use crate::types::{Row, Signed};
use field::Exponent;

// Stands for an unknown exponent: no exponent of three columns has it.
pub const UNKNOWN: u64 = 1000;

// The numbers of a stored row: those of its line alone (x, y, z, clock, their four exponents, four flags) and those of its note; and those of a
// P row with its V row.
pub const BARE_WIDTH: usize = 12;

pub const NOTE_WIDTH: usize = 11;

pub const ROW_WIDTH: usize = BARE_WIDTH + NOTE_WIDTH;

pub const BOTH_WIDTH: usize = 2 * ROW_WIDTH;

// The widths, and the bounds of a note, are those of the definitions.
pub fn widths_hold() -> bool
    ensures result { result ≡ true }
    ensures bare { BARE_WIDTH ≡ bare_width }
    ensures note { NOTE_WIDTH ≡ note_width }
    ensures row { ROW_WIDTH ≡ row_width }
    ensures both { BOTH_WIDTH ≡ both_width }
    ensures comment { COMMENT_WIDTH ≡ comment_width }
    ensures unknown { UNNOTED ≡ unnoted }
    ensures largest { LARGEST_CORRELATION ≡ largest_correlation }
{
    true
}

impl<'a> Judge<'a> {
    // Columns 2 to 73, the same in P and V.
    fn body(&mut self)
        ensures { self.new ≡ after_all body_items self.old }
    {
        self.identifier(2, 4);
        self.amount(false, 5, 18);
        self.amount(false, 19, 32);
        self.amount(false, 33, 46);
        self.amount(true, 47, 60);
        self.unused(61, 61);
        self.exponent(62, 63);
        self.unused(64, 64);
        self.exponent(65, 66);
        self.unused(67, 67);
        self.exponent(68, 69);
        self.unused(70, 70);
        self.exponent(71, 73);
    }

    // Columns 74 to 80 of P.
    fn flags(&mut self)
        ensures { self.new ≡ after_all flag_items self.old }
    {
        self.unused(74, 74);
        self.flag(b'E', 75);
        self.flag(b'P', 76);
        self.unused(77, 78);
        self.flag(b'M', 79);
        self.flag(b'P', 80);
    }
}

// The fault that decides a P line, or a V line where `velocity` says so: `PG07` with a blank x is 6 at column 5.
pub fn row_fault(line: &[u8; 80], velocity: bool) -> usize
    ensures result { result ≡ row_fault velocity line.now }
{
    let mut judge = Judge::of(line);
    if velocity {
        judge.fixed(4, b"V", 0, 1, 1);
        judge.body();
        judge.unused(74, 80);
    } else {
        judge.fixed(4, b"P", 0, 1, 1);
        judge.body();
        judge.flags();
    }
    judge.fault
}

// A number of 14 columns of a line that was judged.
#[tactic(auto, unfolding(field::specs::Known::known_negative))]
fn signed_of(line: &[u8; 80], first: usize, last: usize) -> Signed
    requires { (1 ≤ first) × (first ≤ last) × (last ≤ 80) }
    ensures { result ≡ signed_in (cut first last line.now) }
{
    let bytes = fields::cut(line, first, last);
    let magnitude = field::known::magnitude(bytes, 6);
    Signed {
        negative: field::known::is_negative(bytes, 6, magnitude),
        magnitude,
    }
}

// The clock or rate of such a line, columns 47 to 60; an absent one is held as twelve nines.
fn clock_taken(line: &[u8; 80]) -> Signed
    ensures { result ≡ clock_field_in (cut 47 60 line.now) }
{
    let read = signed_of(line, 47, 60);
    Signed {
        negative: read.negative,
        magnitude: field::known::clock_held(read.negative, read.magnitude, 6),
    }
}

// A whole number that may be blank: what stands for unknown, then.
pub(crate) fn known_of(line: &[u8; 80], first: usize, last: usize, unknown: u64) -> u64
    requires { (1 ≤ first) × (first ≤ last) × (last ≤ 80) }
    ensures { result ≡ maybe_held unknown (exponent_of (cut first last line.now)) }
{
    let answer = field::read::exponent(fields::cut(line, first, last));
    let Exponent::Value(n) = answer else {
        let Exponent::Unknown = answer else {
            return 0;
        };
        return unknown;
    };
    n
}

// A flag of P: V has none.
fn mark_of(line: &[u8; 80], velocity: bool, sign: u8, at: usize) -> bool
    requires { (1 ≤ at) × (at ≤ 80) }
    ensures { result ≡ flag_in velocity sign (cut at at line.now) }
{
    (!velocity) & (line[at - 1] == sign)
}

// The identifier in columns 2 to 4 as one number: 7107 of `PG07`.
pub fn satellite_in(line: &[u8; 80]) -> u64
    ensures result { result ≡ identifier_code (cut 2 4 line.now) }
{
    fields::identifier_of(fields::cut(line, 2, 4))
}

// The row of a line of 80 columns. The exponents are taken before the decimals, which costs less.
#[tactic(auto, unfolding(crate::specs::Rows::row_taken))]
fn row_taken(line: &[u8; 80], velocity: bool) -> Row
    ensures { result ≡ row_taken velocity line.now }
{
    Row {
        x_exponent: known_of(line, 62, 63, UNKNOWN),
        y_exponent: known_of(line, 65, 66, UNKNOWN),
        z_exponent: known_of(line, 68, 69, UNKNOWN),
        clock_exponent: known_of(line, 71, 73, UNKNOWN),
        x: signed_of(line, 5, 18),
        y: signed_of(line, 19, 32),
        z: signed_of(line, 33, 46),
        clock: clock_taken(line),
        satellite: satellite_in(line),
        event: mark_of(line, velocity, b'E', 75),
        predicted: mark_of(line, velocity, b'P', 76),
        maneuver: mark_of(line, velocity, b'M', 79),
        orbit_predicted: mark_of(line, velocity, b'P', 80),
    }
}

// The row of a P line, or of a V line where `velocity` says so, which has no fault; a short line counts as padded.
pub fn row_of(line: &[u8], velocity: bool) -> Row
    ensures result { result ≡ row_of velocity line.now }
{
    row_taken(&layout::pad(line), velocity)
}
