// P and V lines written.
ghost use Rattle.std.specs.Prelude.{◌≡◌, false, cond, [], ◌∷◌};
ghost use Rattle.field.specs.Show.{fits_decimal};
ghost use Rattle.layout.specs.Inking.{inked, end_from, line_end};
ghost use Rattle.layout.specs.Line.{Lays};
ghost use Rattle.record.specs.Rows.{body_items, body_values, flag_items, flag_values, row_items, row_values, row_line};

use crate::columns;
use crate::ended::lay_ended;
use field::write::{fits_decimal, fits_whole};
use record::rows::UNKNOWN;
use record::{Row, Signed};

// Whether a number of 14 columns fits them.
fn fits(n: Signed) -> bool
    ensures { result ≡ fits_decimal 14 6 n.negative n.magnitude }
{
    fits_decimal(14, 6, n.negative, n.magnitude)
}

// The last column up to 73 that is not blank: that of an exponent, of a number, or of the identifier.
fn body_end(p: Row) -> usize
    ensures { result ≡ end_from 1 body_items (body_values p) }
{
    if fits_whole(3, p.clock_exponent) {
        return 73;
    }
    if fits_whole(2, p.z_exponent) {
        return 69;
    }
    if fits_whole(2, p.y_exponent) {
        return 66;
    }
    if fits_whole(2, p.x_exponent) {
        return 63;
    }
    if fits(p.clock) {
        return 60;
    }
    if fits(p.z) {
        return 46;
    }
    if fits(p.y) {
        return 32;
    }
    if fits(p.x) { 18 } else { 4 }
}

// The same of P up to 80: that of a flag.
fn flagged_end(p: Row) -> usize
    ensures { result ≡ line_end (row_items false) (row_values false p) }
{
    if p.orbit_predicted {
        return 80;
    }
    if p.maneuver {
        return 79;
    }
    if p.predicted {
        return 76;
    }
    if p.event {
        return 75;
    }
    body_end(p)
}

// The last column of a row's line that is not blank.
#[tactic(auto, using(crate::proofs::RowEnds::velocity_ends))]
fn row_end(p: Row, velocity: bool) -> usize
    ensures { result ≡ line_end (row_items velocity) (row_values velocity p) }
{
    if velocity {
        body_end(p)
    } else {
        flagged_end(p)
    }
}

// Columns 2 to 73 of a line.
fn put_body(line: &mut [u8], p: Row)
    ensures { line.new ≡ inked body_items (body_values p) line.old }
{
    columns::ink_identifier(line, p.satellite, 2, 4);
    columns::ink_signed(line, p.x, 5, 18);
    columns::ink_signed(line, p.y, 19, 32);
    columns::ink_signed(line, p.z, 33, 46);
    columns::ink_signed(line, p.clock, 47, 60);
    columns::ink_spaced(line, p.x_exponent, UNKNOWN, 62, 63);
    columns::ink_spaced(line, p.y_exponent, UNKNOWN, 65, 66);
    columns::ink_spaced(line, p.z_exponent, UNKNOWN, 68, 69);
    columns::ink_spaced(line, p.clock_exponent, UNKNOWN, 71, 73);
}

// Columns 74 to 80 of P.
fn put_flags(line: &mut [u8], p: Row)
    ensures { line.new ≡ inked flag_items (flag_values p) line.old }
{
    columns::ink_blank(line, 74, 74);
    columns::ink_flag(line, b'E', p.event, 75);
    columns::ink_flag(line, b'P', p.predicted, 76);
    columns::ink_blank(line, 77, 78);
    columns::ink_flag(line, b'M', p.maneuver, 79);
    columns::ink_flag(line, b'P', p.orbit_predicted, 80);
}

// The symbol: P, or V where `velocity` says so.
fn symbol_of(velocity: bool) -> [u8; 1]
    ensures { result ≡ cond velocity 86 80 ∷ [] }
{
    [if velocity { b'V' } else { b'P' }]
}

// A row in the bytes up to its line's end.
fn put_row(line: &mut [u8], p: Row, velocity: bool)
    ensures { line.new ≡ inked (row_items velocity) (row_values velocity p) line.old }
{
    let symbol = symbol_of(velocity);
    columns::ink_fixed(line, &symbol, 1, 1);
    put_body(line, p);
    if velocity {
        columns::ink_blank(line, 74, 80);
    } else {
        put_flags(line, p);
    }
}

// A P line, or a V line where `velocity` says so, laid at the front of `out`, where there is room, and its length in any case.
pub fn write_row(p: Row, velocity: bool, out: &mut [u8]) -> usize
    ensures lays { Lays (row_line velocity p) out.old result out.new }
{
    let end = row_end(p, velocity);
    lay_ended(end, out, |line| put_row(line, p, velocity))
}
