// Takes one SP3-c or SP3-d file from standard input and prints its canonical form in the same version, or one line `refused 6 line 24 column 5` (number, line, column), or
// `too long` where the input has more than 65,536 bytes. What is printed is `printed` (specs/Printed.antt) of the bytes that were read; 65,537 of them tell enough.
#![tactic(auto)]

mod answer;
mod rewriting;
mod text;
mod types;

// The number of standard input.
const STDIN: i32 = 0;

fn main(rt: HostRuntime) {
    let mut input = [0u8; 65_537];
    let mut out = [0u8; 65_536];
    let n = io::read_full(STDIN, &mut input);
    let length = answer::answer(&input[..n], &mut out);
    let _ = rt.write_all(&out[..length]);
}
