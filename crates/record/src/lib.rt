// Every line of the format by its layout: its kind, its columns judged and read. A reader takes a line of 80 columns; a shorter one is padded
// by `layout::pad`. The definitions say too how each line is shown, and `draw` writes it.
#![tactic(auto)]

pub mod absence;
pub mod descriptors;
mod fields;
pub mod kind;
pub mod notes;
pub mod opening;
pub mod plain;
pub mod rows;
pub mod slots;
mod types;

pub use types::{
    BaseLine, Descriptor, Epoch, First, LineKind, Note, Row, Satellites, Second, Signed, Slots,
};
