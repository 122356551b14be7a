// The answer of a file read and written again: the refusal (0 written), its line and column (0 for none) and the length of the canonical form in bytes,
// 0 beside a refusal.
#[derive(Clone, Copy)]
pub(crate) struct Rewritten {
    pub refusal: usize,
    pub line: u64,
    pub column: usize,
    pub length: usize,
}
