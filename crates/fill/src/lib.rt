// A table filled into lent memory from the lines of a file.
#![tactic(auto)]

mod fill;
mod rows;

pub use fill::{fill_comments, fill_rows, fill_slots};
