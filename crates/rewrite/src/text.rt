// What the program says in words, laid from the first byte of `out` on.
ghost use Rattle.std.specs.Prelude.{◌≤◌, length};
ghost use Rattle.layout.specs.Line.{Lays};
ghost use Rattle.rewrite.specs.Printed.{number_text, said, refused_text};

// Bytes for which there is room, and how many they are.
pub(crate) fn put_bytes(bytes: &[u8], out: &mut [u8]) -> usize
    requires { length bytes.now ≤ length out.old }
    ensures { Lays bytes.now out.old result out.new }
{
    layout::copy_front(out, bytes);
    bytes.len()
}

// A number in decimal digits.
fn put_number(n: u64, out: &mut [u8]) -> usize
    requires { length (number_text n) ≤ length out.old }
    ensures { Lays (number_text n) out.old result out.new }
{
    let mut digits = [0u8; 20];
    let count = io::decimal(n, &mut digits);
    put_bytes(&digits[..count], out)
}

// A word and a number.
fn put_said(word: &[u8], n: u64, out: &mut [u8]) -> usize
    requires { length (said word.now n) ≤ length out.old }
    ensures { Lays (said word.now n) out.old result out.new }
{
    let at = put_bytes(word, out);
    at + put_number(n, &mut out[at..])
}

// `refused N line L column C` and LF.
pub(crate) fn put_refusal(number: usize, line: u64, column: usize, out: &mut [u8]) -> usize
    requires { length (refused_text number line column) ≤ length out.old }
    ensures { Lays (refused_text number line column) out.old result out.new }
{
    let mut at = put_said(b"refused ", number as u64, out);
    at += put_said(b" line ", line, &mut out[at..]);
    at += put_said(b" column ", column as u64, &mut out[at..]);
    at + put_bytes(b"\n", &mut out[at..])
}
