// Doors for C: every function that a user calls, under a name of its own, with structs by value and slices as a pointer and a length. They hold
// no rule: each calls one function of the library and hands its answer on.
#![tactic(auto)]

mod asking;
mod lists;
mod reading;
mod types;
mod walking;

pub use asking::{
    sp3_comment, sp3_date, sp3_header, sp3_identifier, sp3_moment, sp3_row, sp3_satellite_of,
};
pub use lists::{
    sp3_clock_of, sp3_exponent_of, sp3_flag_of, sp3_note_correlation_of, sp3_note_deviation_of,
    sp3_note_of, sp3_place_of,
};
pub use reading::{
    sp3_divide, sp3_form_length, sp3_form_length_c, sp3_judge, sp3_judge_front, sp3_read,
    sp3_read_front, sp3_write, sp3_write_c,
};
pub use types::{
    DateAnswer, HeaderParts, LineAnswer, MomentAnswer, NoteCorrelationAnswer, NoteDeviationAnswer,
    RowStepAnswer, StoredClock, StoredExponent, StoredFlag, StoredNote, StoredPlace,
};
pub use walking::{
    sp3_after_lines, sp3_begin, sp3_due, sp3_first_row, sp3_first_spot, sp3_next_line,
    sp3_next_row, sp3_read_line,
};
