// The complete lines of some bytes, one after another.
ghost use Rattle.std.specs.Prelude.{◌≡◌};
ghost use Rattle.std.specs.Iterator.{YieldsFirstRef, item_count};
ghost use Rattle.lines.specs.Lines.{lines_of};

// The bytes behind the lines that were given.
#[derive(Drop)]
pub struct CompleteLines<'a> {
    rest: &'a [u8],
}

impl<'a> Iterator for CompleteLines<'a> {
    type Item = &'a [u8];

    ghost next_gives = { YieldsFirstRef (λ s. lines_of s.rest.now) };

    ghost remaining = { item_count (λ s. lines_of s.rest.now) };

    fn next(&mut self) -> Option<&'a [u8]> {
        let rest = self.rest;
        let end = lines::line_end(rest, 0);
        if end >= rest.len() {
            return None;
        }
        self.rest = &rest[end + 1..];
        Some(&rest[..end])
    }
}

// Each line of some bytes without its LF; what stands behind the last LF is no line.
pub fn complete_lines(bytes: &[u8]) -> CompleteLines
    ensures { result.rest ≡ bytes.entry }
{
    CompleteLines { rest: bytes }
}
