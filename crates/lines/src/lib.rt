// Bytes as lines, and lent memory that is filled from its first place on.
#![tactic(auto)]

ghost use Rattle.std.specs.Prelude.{◌≡◌, ◌+◌, ◌≤◌, length, take, drop};
ghost use Rattle.lines.specs.Lines.{line_length, has_lf, is_full_line};
ghost use Rattle.lines.specs.Lent.{laid};

// The byte that ends a line: LF.
const LINE_END: u8 = 10;

// Whether an LF stands in some bytes. A flag to the end, and no way out, lets LLVM take sixteen of them at once.
fn has_lf(bytes: &[u8]) -> bool
    ensures { result ≡ has_lf bytes.now }
{
    bytes
        .iter()
        .fold(false, |found, b| found | (*b == LINE_END))
}

// Whether 80 columns and then an LF stand first, as in most lines of a file.
#[tactic(auto, using(crate::proofs::Ends::full_by), unfolding(crate::specs::Lines::is_full_line))]
fn is_full_line(bytes: &[u8]) -> bool
    ensures { result ≡ is_full_line bytes.now }
{
    if bytes.len() <= 80 || bytes[80] != LINE_END {
        return false;
    }
    !has_lf(&bytes[..16]) && !has_lf(&bytes[16..80])
}

// How many bytes stand before the first LF, or in all where there is none, byte by byte.
#[tactic(auto, using(crate::proofs::Ends::bytewise))]
fn length_by_bytes(bytes: &[u8]) -> usize
    ensures { result ≡ line_length bytes.now }
{
    for (i, b) in bytes.iter().enumerate() {
        if *b == LINE_END {
            return i;
        }
    }
    bytes.len()
}

// The same, a full line at once, and sixteen bytes at once as long as they have no LF.
#[tactic(auto, using(crate::proofs::Ends::endings))]
fn line_length(bytes: &[u8]) -> usize
    ensures { result ≡ line_length bytes.now }
{
    if is_full_line(bytes) {
        return 80;
    }
    let mut rest = bytes;
    while let Some((block, after)) = rest.split_first_chunk::<16>() {
        if has_lf(block) {
            break;
        }
        rest = after;
    }
    bytes.len() - rest.len() + length_by_bytes(rest)
}

// Where the line that begins at `at` ends: at its LF, or after the last byte where there is none.
#[tactic(auto, using(crate::proofs::Ends::endings))]
pub fn line_end(bytes: &[u8], at: usize) -> usize
    ensures result { result ≡ at + line_length (drop at bytes.now) }
{
    match bytes.get(at..) {
        Some(rest) => at + line_length(rest),
        None => at,
    }
}

// The numbers laid over the front of `out`, as many as it has room for.
pub fn lay_numbers(out: &mut [u64], numbers: &[u64])
    ensures lent { out.new ≡ laid numbers.now out.old }
{
    let n = out.len().min(numbers.len());
    out[..n].copy_from_slice(&numbers[..n]);
}
