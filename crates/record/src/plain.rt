// Comments and the end of the file.
ghost use Rattle.std.specs.Prelude.{◌≡◌};
ghost use Rattle.layout.specs.Layout.{fault_of};
ghost use Rattle.record.specs.Plain.{comment_items, end_items};

use crate::fields::Judge;

// The bytes of a stored comment: columns 4 to 80 of its line.
pub const COMMENT_WIDTH: usize = 77;

// A comment: text in column 3 is 5 at column 3. Its text is columns 4 to 80.
#[tactic(auto, unfolding(crate::specs::Steps::after))]
pub fn comment_fault(line: &[u8; 80]) -> usize
    ensures result { result ≡ fault_of comment_items line.now }
{
    let mut judge = Judge::of(line);
    judge.symbols(b'/', b'*');
    judge.unused(3, 3);
    judge.fault
}

// The end of the file: `EOFX` is 5 at column 4.
#[tactic(auto, unfolding(crate::specs::Steps::after))]
pub fn end_fault(line: &[u8; 80]) -> usize
    ensures result { result ≡ fault_of end_items line.now }
{
    let mut judge = Judge::of(line);
    judge.fixed(4, b"EOF", 0, 1, 3);
    judge.unused(4, 80);
    judge.fault
}
