// Reads a batch of cases from standard input, each a stretch of bytes with what is lent and what is asked, and prints what the reader answers: the
// judgements, the readings with everything that was lent, the table by its accessors, and the questions.
// What it must print is made by tests/files.rs, out of the documents alone; the batches too. It shares no code with this.
#![tactic(auto)]

mod asked;
mod cases;
mod input;
mod lent;
mod print;
mod table;

fn main(rt: HostRuntime) {
    input::all(&rt);
}
