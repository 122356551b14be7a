// Reads a batch of cases from standard input, each a file or a table with a room for its canonical form, and prints what the writer answers: the
// number and the length, the bytes written, and whether every other byte of the room is as it was.
// What it must print is made by tests/forms.rs, out of the documents alone; the batches too. It shares no code with this.
#![tactic(auto)]

mod fields;
mod given;
mod input;
mod print;
mod shown;
mod words;

fn main(rt: HostRuntime) {
    input::all(&rt);
}
