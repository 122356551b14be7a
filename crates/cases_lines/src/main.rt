// Reads the lines of standard input, each as the kind that stands before it, and prints what the readers and writers answer: the fault,
// by the paper's number and its column, or the canonical line. Of a record that is given by its values it prints what its writer answers and leaves in
// the room that it is lent.
// What it must print is made by tests/lines.rs, out of the documents alone; the cases too. It shares no code with this.
#![tactic(auto)]

mod cases;
mod input;
mod kinds;
mod print;
mod words;
mod written;

fn main(rt: HostRuntime) {
    input::all(&rt);
}
