// Reading: one file judged, then its table filled into lent memory.
#![tactic(auto)]

mod delivery;
mod judging;
mod types;

pub use delivery::{read, read_front};
pub use judging::{judge, judge_front};
pub use types::Reading;
