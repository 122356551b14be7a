// The `%c`, `%f` and `%i` lines written. Each ends in column 60.
ghost use Rattle.std.specs.Prelude.{◌≡◌, length};
ghost use Rattle.layout.specs.Line.{Lays, trimmed};
ghost use Rattle.layout.specs.Layout.{show_line};
ghost use Rattle.record.specs.Descriptors.{descriptor_items, descriptor_values, descriptor_line, character_items, base_items, base_values, base_line, float_items, integer_items, fixed_line};

use crate::ended::lay_ended;
use crate::{columns, plain};
use record::{BaseLine, Descriptor};

// The columns of each of these lines.
const LAST: usize = 60;

// The first `%c` line in its 60 bytes.
fn put_descriptor(line: &mut [u8], d: Descriptor)
    requires { length line.old ≡ 60 }
    ensures { line.new ≡ trimmed (show_line descriptor_items (descriptor_values d)) }
{
    columns::ink_fixed(line, b"%c ", 1, 3);
    columns::ink_letter(line, d.file_type, 4, 5);
    columns::ink_fixed(line, b" cc ", 6, 9);
    columns::ink_text(line, &d.time_system, 10, 12);
    columns::ink_fixed(
        line,
        b" ccc cccc cccc cccc cccc ccccc ccccc ccccc ccccc",
        13,
        60,
    );
}

// The first `%c` line laid at the front of `out`, where there is room, and its length in any case.
pub fn write_descriptor(d: Descriptor, out: &mut [u8]) -> usize
    ensures lays { Lays (descriptor_line d) out.old result out.new }
{
    lay_ended(LAST, out, |line| put_descriptor(line, d))
}

// The same of the second.
#[tactic(auto, unfolding(record::specs::Descriptors::fixed_line))]
pub fn write_characters(out: &mut [u8]) -> usize
    ensures lays { Lays (fixed_line character_items) out.old result out.new }
{
    plain::write_same(
        b"%c cc cc ccc ccc cccc cccc cccc cccc ccccc ccccc ccccc ccccc",
        out,
    )
}

// The first `%f` line in its 60 bytes.
fn put_bases(line: &mut [u8], b: BaseLine)
    requires { length line.old ≡ 60 }
    ensures { line.new ≡ trimmed (show_line base_items (base_values b)) }
{
    columns::ink_fixed(line, b"%f ", 1, 3);
    columns::ink_decimal(line, 7, b.bases.place, 4, 13);
    columns::ink_blank(line, 14, 14);
    columns::ink_decimal(line, 9, b.bases.clock, 15, 26);
    columns::ink_fixed(line, b"  0.00000000000  0.000000000000000", 27, 60);
}

// The first `%f` line laid at the front of `out`, where there is room, and its length in any case.
pub fn write_bases(b: BaseLine, out: &mut [u8]) -> usize
    ensures lays { Lays (base_line b) out.old result out.new }
{
    lay_ended(LAST, out, |line| put_bases(line, b))
}

// The same of the second.
#[tactic(auto, unfolding(record::specs::Descriptors::fixed_line, field::specs::Show::show_integer, field::specs::Show::fits_integer, field::specs::Show::show_decimal, field::specs::Show::fits_decimal))]
pub fn write_floats(out: &mut [u8]) -> usize
    ensures lays { Lays (fixed_line float_items) out.old result out.new }
{
    plain::write_same(
        b"%f  0.0000000  0.000000000  0.00000000000  0.000000000000000",
        out,
    )
}

// The same of a `%i` line.
#[tactic(auto, unfolding(record::specs::Descriptors::fixed_line, field::specs::Show::show_integer, field::specs::Show::fits_integer))]
pub fn write_integers(out: &mut [u8]) -> usize
    ensures lays { Lays (fixed_line integer_items) out.old result out.new }
{
    plain::write_same(
        b"%i    0    0    0    0      0      0      0      0         0",
        out,
    )
}
