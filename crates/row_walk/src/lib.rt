// The rows of a file in order, for the adjustment's loop: judged once, then walked row by row, absence a case of its own.
#![tactic(auto)]

mod beginning;
mod rows;
mod types;

pub use beginning::begin;
pub use rows::{first, next_row, read_known};
pub use types::{RowStep, RowWalk};
