// A stretch divided into the accepted files that stand at its front, one after another, each of the version that its first bytes tell.
#![tactic(auto)]

ghost use Rattle.std.specs.Prelude.{◌≡◌, ◌≤◌, length, take};
ghost use Rattle.lines.specs.Lent.{over};
ghost use Rattle.header.specs.Versions.{rules_in};
ghost use Rattle.scan.specs.Run.{scan_of};
ghost use Rattle.divide.specs.Dividing.{FileHere, end_of, cuts_of, division, divide_of, lengths_after};

use header::Rules;
use record::kind::END_KIND;

// What a stretch divides into: the number of accepted files at its front, the byte where the rest begins, and the refusal, line and column
// there, counted from that byte; all 0 where nothing is left.
#[repr(C)]
#[derive(Clone, Copy)]
pub struct Division {
    pub count: u64,
    pub rest: usize,
    pub refusal: usize,
    pub line: u64,
    pub column: usize,
}

// The parts of an answer.
fn answer(count: u64, rest: usize, refusal: usize, line: u64, column: usize) -> Division
    ensures { result ≡ division count rest refusal line column }
{
    Division {
        count,
        rest,
        refusal,
        line,
        column,
    }
}

// Counts the files at the front, as many as there is room for: one more is 12 alone.
fn count_files(stretch: &[u8], room: u64) -> Division
    ensures { result ≡ divide_of stretch.now room }
{
    let mut count: u64 = 0;
    let mut rest: usize = 0;
    while rest < stretch.len() {
        let left = &stretch[rest..];
        match scan::scan_front(Rules::told_by(left), left) {
            Err(refusal) => {
                return answer(count, rest, refusal.number, refusal.line, refusal.column);
            }
            Ok(tally) => {
                count += 1;
                if count > room {
                    return answer(0, 0, 12, 0, 0);
                }
                rest += tally.end;
            }
        }
    }
    answer(count, rest, 0, 0, 0)
}

// The length of the file at the front, which is known to be accepted: it ends with its first EOF line.
fn file_length(bytes: &[u8]) -> usize
    requires { FileHere bytes.now }
    ensures { result ≡ end_of (scan_of (rules_in bytes.now) bytes.now) }
{
    let last = file::line_begins(Rules::told_by(bytes), bytes, END_KIND, 0);
    lines::line_end(bytes, last) + 1
}

// Stores the lengths of the first files in the first places of `lengths`. The files have been judged, and are not judged again.
fn store_lengths(stretch: &[u8], count: usize, lengths: &mut [u64])
    requires { (count ≤ length (cuts_of stretch.now).lengths) × (count ≤ length lengths.old) }
    ensures { lengths.new ≡ over (take count (cuts_of stretch.now).lengths) lengths.old }
{
    let mut rest: usize = 0;
    for stored in 0..count {
        let size = file_length(&stretch[rest..]);
        lengths[stored] = size as u64;
        rest += size;
    }
}

// Divides a stretch into the accepted files at its front: their lengths go to the first places of `lengths`. More lengths than places are 12
// alone, and nothing is written.
pub fn divide(stretch: &[u8], lengths: &mut [u64]) -> Division
    ensures result { result ≡ divide_of stretch.now (length lengths.old) }
    ensures lent { lengths.new ≡ lengths_after stretch.now lengths.old }
{
    let division = count_files(stretch, lengths.len() as u64);
    store_lengths(stretch, division.count as usize, lengths);
    division
}
