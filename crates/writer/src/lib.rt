// Writing: a table judged and measured, then its canonical form laid into the lent output, line directly after line.
#![tactic(auto)]

mod epochs;
mod heads;
mod shown;
mod whole;

pub use whole::write;
