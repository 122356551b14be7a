// Answers as text, a line for each. What cannot be written is passed over.

// Bytes as they stand, which need not be text.
pub(crate) fn bytes(rt: &impl Print, s: &[u8]) {
    let _ = rt.write_all(s);
}

// A line that is judged and written, into a room of marks, also where it has a fault: the numbers of the fault and of its column, or 0 and 0 and the line.
pub(crate) fn written<W: FnOnce(&mut [u8]) -> usize>(rt: &impl Print, fault: usize, write: W)
    requires { (room : _) → W.pre write room }
{
    let mut out = [b'#'; 81];
    let n = write(&mut out);
    if fault != 0 {
        let _ = println!(rt; "{} {}", layout::number_of(fault), layout::column_of(fault));
        return;
    }
    let _ = print!(rt; "0 0 ");
    bytes(rt, out.get(..n).unwrap_or_default());
}

// What a writer answered, and every byte of the room that it was lent, an LF as `$`, so that an answer is one line.
pub(crate) fn room(rt: &impl Print, out: &mut [u8], n: usize) {
    for b in out.iter_mut() {
        if *b == b'\n' {
            *b = b'$';
        }
    }
    let _ = print!(rt; "{n} |");
    bytes(rt, out);
    bytes(rt, b"|\n");
}
