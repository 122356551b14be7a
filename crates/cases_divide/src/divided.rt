// How a stretch divides: refusal, line, column, number of files and where the rest begins, then each length, then whether every other lent place is
// as it was.
use crate::lent;

// A stretch divided into this room.
fn into(rt: &impl Print, bytes: &[u8], room: &mut [u64]) {
    let division = divide::divide(bytes, room);
    let _ = println!(rt;
        "divide {} {} {} {} {}",
        division.refusal, division.line, division.column, division.count, division.rest
    );
    lent::lengths(rt, room, division.count);
}

// A stretch divided into a room of `size` places, 1,000 at most.
pub(crate) fn shown(rt: &impl Print, bytes: &[u8], size: u64) {
    let mut room = [lent::MARK; 1000];
    let n = (size as usize).min(1000);
    into(rt, bytes, &mut room[..n]);
}
