// Reads a batch of cases from standard input, each a stretch of bytes with room for the lengths of its files, and prints how it divides; where the
// case says so, the bytes as one file too: its identifiers, its rows in order as a walk gives them, the spots after some lines and what is due there.
// What it must print is made by tests/divide.rs, out of the documents, and out of the definitions where the documents are silent: what the state of a
// spot is, what other identifiers than the file's do, and what is told of a line that is due. The batches too. It shares no code with this.
#![tactic(auto)]

mod divided;
mod input;
mod lent;
mod print;
mod walked;

fn main(rt: HostRuntime) {
    input::all(&rt);
}
