// A row in lent memory, asked for by name.
#![tactic(auto)]

mod notes;
mod rows;
mod types;

pub use notes::{note_correlation_of, note_deviation_of, note_of};
pub use rows::{clock_of, exponent_of, flag_of, place_of, stored_number};
pub use types::{ClockRead, ExponentRead, Flag, NoteCorrelation, NoteDeviation, NoteMark, Place};
