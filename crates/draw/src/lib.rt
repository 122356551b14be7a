// Every line of the format written: its canonical text laid at the front of the lent output. What each line is, `record` defines.
#![tactic(auto)]

mod columns;
pub mod descriptors;
mod ended;
pub mod notes;
pub mod opening;
pub mod plain;
pub mod rows;
pub mod slots;
