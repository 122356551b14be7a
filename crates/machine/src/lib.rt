// The machine that a file is judged by, line by line: what may stand where, and what each line does.
#![tactic(auto)]

mod checks;
mod due;
mod faults;
mod next;
mod step;
mod types;

pub use checks::{instant_in, type_agrees};
pub use due::due_at;
pub use faults::kind_number;
pub use step::{
    keep_identifiers, line_known, mark_brought, mark_known, read_line, start, step_line,
};
pub use types::{Due, LineRead, State, Verdict};
