// The `%c`, `%f` and `%i` lines.
ghost use Rattle.std.specs.Prelude.{◌≡◌, [], ◌∷◌, ◌+◌, ◌-◌, ◌≤◌, ◌<◌};
ghost use Rattle.layout.specs.Kind.Kind.{unused, zero_whole};
ghost use Rattle.layout.specs.Layout.{column, columns, fault_of};
ghost use Rattle.record.specs.Descriptors.{cs, later_characters, descriptor_of, character_items, later_floats, base_of, float_items, integer_items};
ghost use Rattle.record.specs.Steps.{after_all};

use crate::fields;
use crate::fields::Judge;
use crate::types::{BaseLine, Descriptor};
use header::{Bases, Header};

// Parts that several of these lines have.
impl<'a> Judge<'a> {
    // A blank column and, after it, a placeholder of `c` up to `last`, of five columns at most.
    fn cs_after(&mut self, blank: usize, last: usize)
        requires { (1 ≤ blank) × (blank < last) × (last ≤ blank + 5) × (last ≤ 80) }
        ensures { self.new ≡ after_all (column blank unused ∷ columns (blank + 1) last (cs (last - blank)) ∷ []) self.old }
    {
        let cs = [b'c'; 5];
        let first = blank + 1;
        self.unused(blank, blank);
        self.fixed(5, &cs[..last - blank], first, first, last);
    }

    // A blank column and, after it, a placeholder of zero up to `last`.
    fn zero_after(&mut self, blank: usize, last: usize)
        requires { (1 ≤ blank) × (blank < last) × (last ≤ 80) }
        ensures { self.new ≡ after_all (column blank unused ∷ columns (blank + 1) last zero_whole ∷ []) self.old }
    {
        self.unused(blank, blank);
        self.zero_whole(blank + 1, last);
    }

    // Columns 13 to 80 of both `%c` lines: placeholders of `c`.
    fn later_characters(&mut self)
        ensures { self.new ≡ after_all later_characters self.old }
    {
        self.cs_after(13, 16);
        self.cs_after(17, 21);
        self.cs_after(22, 26);
        self.cs_after(27, 31);
        self.cs_after(32, 36);
        self.cs_after(37, 42);
        self.cs_after(43, 48);
        self.cs_after(49, 54);
        self.cs_after(55, 60);
        self.unused(61, 80);
    }

    // Columns 27 to 80 of both `%f` lines: placeholders of zero.
    fn later_floats(&mut self)
        ensures { self.new ≡ after_all later_floats self.old }
    {
        self.unused(27, 27);
        self.zero_decimal(11, 28, 41);
        self.unused(42, 42);
        self.zero_decimal(15, 43, 60);
        self.unused(61, 80);
    }
}

// The first `%c` line: file type `Gx` is 6 at column 4, time system `gps` 6 at column 10.
pub fn read_descriptor(line: &[u8; 80]) -> Descriptor
    ensures result { result ≡ descriptor_of line.now }
{
    let mut judge = Judge::of(line);
    judge.symbols(b'%', b'c');
    judge.unused(3, 3);
    let file_type = judge.file_type();
    judge.cs_after(6, 8);
    judge.unused(9, 9);
    judge.time_system();
    judge.later_characters();
    Descriptor {
        fault: judge.fault,
        file_type,
        time_system: fields::text(line, 10),
    }
}

// The second `%c` line: placeholders alone.
pub fn characters_fault(line: &[u8; 80]) -> usize
    ensures result { result ≡ fault_of character_items line.now }
{
    let mut judge = Judge::of(line);
    judge.symbols(b'%', b'c');
    judge.cs_after(3, 5);
    judge.cs_after(6, 8);
    judge.cs_after(9, 12);
    judge.later_characters();
    judge.fault
}

// The first `%f` line: a blank base is 6 at its first column.
pub fn read_bases(line: &[u8; 80]) -> BaseLine
    ensures result { result ≡ base_of line.now }
{
    let mut judge = Judge::of(line);
    judge.symbols(b'%', b'f');
    judge.unused(3, 3);
    let place = judge.decimal(7, 0, Header::MAX_PLACE_BASE, 4, 13);
    judge.unused(14, 14);
    let clock = judge.decimal(9, 0, Header::MAX_CLOCK_BASE, 15, 26);
    judge.later_floats();
    BaseLine {
        fault: judge.fault,
        bases: Bases { place, clock },
    }
}

// The second `%f` line: placeholders alone.
pub fn floats_fault(line: &[u8; 80]) -> usize
    ensures result { result ≡ fault_of float_items line.now }
{
    let mut judge = Judge::of(line);
    judge.symbols(b'%', b'f');
    judge.unused(3, 3);
    judge.zero_decimal(7, 4, 13);
    judge.unused(14, 14);
    judge.zero_decimal(9, 15, 26);
    judge.later_floats();
    judge.fault
}

// A `%i` line: placeholders alone.
pub fn integers_fault(line: &[u8; 80]) -> usize
    ensures result { result ≡ fault_of integer_items line.now }
{
    let mut judge = Judge::of(line);
    judge.symbols(b'%', b'i');
    judge.zero_after(3, 7);
    judge.zero_after(8, 12);
    judge.zero_after(13, 17);
    judge.zero_after(18, 22);
    judge.zero_after(23, 29);
    judge.zero_after(30, 36);
    judge.zero_after(37, 43);
    judge.zero_after(44, 50);
    judge.zero_after(51, 60);
    judge.unused(61, 80);
    judge.fault
}
