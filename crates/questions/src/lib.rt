// Questions about one whole file: its comments and the satellites of its header by number, and a row with where it begins.
#![tactic(auto)]

mod comments;
mod rows;
mod satellites;
mod types;

pub use comments::{comment, comment_answer};
pub use rows::{row, row_begins};
pub use satellites::{identifier_of, satellite_of};
pub use types::{CommentAnswer, RowAnswer, RowBegins, SatelliteAnswer};
