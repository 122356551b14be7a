// The questions about one whole file.
use crate::print;
use crate::print::{AbsentFloat, Float};
use float_row::FloatRow;
use std::fmt;

// The text of a comment, where it lies and as it stands.
pub(crate) fn comment(rt: &impl Print, file: &[u8], k: u64) {
    let answer = questions::comment_answer(file, k);
    let _ = print!(rt;
        "comment {} {} {} {} {} |",
        answer.refusal, answer.line, answer.column, answer.at, answer.length
    );
    print::bytes(rt, questions::comment(file, k));
    print::bytes(rt, b"|\n");
}

// The number of a satellite in the header.
pub(crate) fn satellite(rt: &impl Print, file: &[u8], name: u64) {
    let answer = questions::satellite_of(file, name);
    let _ = println!(rt;
        "satellite {} {} {} {}",
        answer.refusal, answer.line, answer.column, answer.number
    );
}

// The place of a row of floats: three numbers, or absent by its mark.
#[derive(Clone, Copy)]
struct Place(FloatRow);

impl fmt::Display for Place {
    fn fmt<W: fmt::Write>(&self, f: &mut fmt::Formatter<W>) -> fmt::Result {
        let row = self.0;
        if row.place_absent {
            write!(f, " {}", AbsentFloat(row.x))
        } else {
            write!(f, " {} {} {}", Float(row.x), Float(row.y), Float(row.z))
        }
    }
}

// Its clock.
#[derive(Clone, Copy)]
struct Clock(FloatRow);

impl fmt::Display for Clock {
    fn fmt<W: fmt::Write>(&self, f: &mut fmt::Formatter<W>) -> fmt::Result {
        let row = self.0;
        if row.clock_absent {
            write!(f, " {}", AbsentFloat(row.clock))
        } else {
            write!(f, " {}", Float(row.clock))
        }
    }
}

// The row of an epoch and a satellite.
pub(crate) fn row(rt: &impl Print, file: &[u8], epoch: u64, satellite: u64) {
    let answer = questions::row(file, epoch, satellite);
    let row = answer.row;
    let _ = println!(rt;
        "row {} {} {}{}{}",
        answer.refusal,
        answer.line,
        answer.column,
        Place(row),
        Clock(row)
    );
}
