// A table to be written: whether it is valid, and how long its canonical form is.
#![tactic(auto)]

mod bounds;
mod lists;
mod measuring;
mod notes;
mod numbers;
mod types;

pub use bounds::cell_width;
pub use measuring::{form_length, measure};
pub use types::{Measured, Table};
