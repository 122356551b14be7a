// Lines of 80 columns, whatever their record: which fault decides, short lines padded, lines cut and laid into lent output.
// The layouts themselves are definitions (specs/Kind, specs/Layout); their laws, once over all of them, are in proofs/.
#![tactic(auto)]

ghost use Rattle.std.specs.Prelude.{◌≡◌, ◌++◌, length, take, drop};
ghost use Rattle.laws.specs.Texts.{every, is_printable};
ghost use Rattle.layout.specs.Fault;
ghost use Rattle.layout.specs.Line.{padded, trimmed, ended, Lays};

// The lower of two faults as keys, of which either may be none (0): 6 at column 5 (773) before 7 at column 4 (900).
#[tactic(auto, unfolding(crate::specs::Fault::lower_of))]
pub fn lower(a: usize, b: usize) -> usize
    ensures result { result ≡ Fault.lower a b }
{
    match (a, b) {
        (_, 0) => a,
        (0, _) => b,
        _ => a.min(b),
    }
}

// The paper's number in a fault's key: 6 of 773.
pub fn number_of(key: usize) -> usize
    ensures result { result ≡ Fault.key_number key }
{
    key / 128
}

// The column in a fault's key, counted from 1: 5 of 773.
pub fn column_of(key: usize) -> usize
    ensures result { result ≡ Fault.column_of key }
{
    key % 128
}

// Whether every byte may stand in a line: 32 to 126.
pub fn is_printable(s: &[u8]) -> bool
    ensures result { result ≡ every is_printable s.now }
{
    s.iter()
        .fold(true, |plain, b| plain & (32..=126).contains(b))
}

// The bytes laid over the front of `out`, as many as it has room for.
pub fn copy_front(out: &mut [u8], bytes: &[u8])
    ensures lent { out.new ≡ take (length out.old) bytes.now ++ drop (length bytes.now) out.old }
{
    for k in 0..out.len().min(bytes.len()) {
        out[k] = bytes[k];
    }
}

// A short line padded with blanks to 80 columns.
#[tactic(auto, using(crate::proofs::Lines::padded_copy))]
pub fn pad(line: &[u8]) -> [u8; 80]
    ensures result { result ≡ padded line.now }
{
    let mut out = [b' '; 80];
    copy_front(&mut out, line);
    out
}

// The byte that fills a line up to 80 columns.
const BLANK: u8 = b' ';

// How many columns a line has without its trailing blanks.
pub fn trimmed_length(line: &[u8]) -> usize
    ensures result { result ≡ length (trimmed line.now) }
{
    match line.iter().rposition(|b| *b != BLANK) {
        Some(last) => last + 1,
        None => 0,
    }
}

// Lays a line, cut and with its LF, at the front of `out`, where there is room, and tells its length in any case.
#[tactic(auto, using(crate::proofs::Lines::laying))]
pub fn lay_line(line: &[u8; 80], out: &mut [u8]) -> usize
    ensures lays { Lays (ended line.now) out.old result out.new }
{
    let n = trimmed_length(line);
    if n >= out.len() {
        return n + 1;
    }
    out[..n].copy_from_slice(&line[..n]);
    out[n] = b'\n';
    n + 1
}
