// One case: its bytes judged, read and asked about.
use crate::{asked, lent, print};
use reader::Reading;

// How many bytes follow the line of a case, how much of each list is lent, and what is asked: the comment, epoch and satellite by number, the satellite's
// identifier as a number.
#[derive(Clone, Copy)]
pub(crate) struct Case {
    pub length: u64,
    pub identifiers: u64,
    pub exponents: u64,
    pub comments: u64,
    pub rows: u64,
    pub comment: u64,
    pub epoch: u64,
    pub satellite: u64,
    pub name: u64,
}

// A judgement or a reading: the refusal, its line, its column, the length, and the letter of the version.
pub(crate) fn told(rt: &impl Print, name: &str, reading: Reading) {
    let _ = print!(rt;
        "{name} {} {} {} {} |",
        reading.refusal, reading.line, reading.column, reading.length
    );
    print::bytes(rt, &[reading.version, b'|', b'\n']);
}

// Every answer about some bytes.
pub(crate) fn answer(rt: &impl Print, case: Case, file: &[u8]) {
    let _ = println!(rt; "case {}", file.len());
    told(rt, "front", reader::judge_front(file));
    told(rt, "whole", reader::judge(file));
    lent::read(rt, case, file, false);
    lent::read(rt, case, file, true);
    asked::comment(rt, file, case.comment);
    asked::satellite(rt, file, case.name);
    asked::row(rt, file, case.epoch, case.satellite);
}
