// The number fields of fixed columns: integers, signed integers, decimals and exponents, read and written at any width up to 18.
#![tactic(auto)]

pub mod known;
pub mod read;
mod scale;
pub mod sign;
pub mod write;

// A field is at most this wide, so that its number fits 64 bits.
pub const WIDEST: usize = 18;

// A signed integer or a decimal, in units of its last place: its sign and magnitude. Zero has no minus.
#[derive(Clone, Copy)]
pub struct Signed {
    pub negative: bool,
    pub magnitude: u64,
}

// An exponent field: its value, that it is blank, or that it is neither.
#[derive(Clone, Copy)]
pub enum Exponent {
    Value(u64),
    Unknown,
    Malformed,
}
