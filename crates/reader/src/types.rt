use header::Header;

// The answer of a reading: the refusal (0 accepted) and its line (0 for none), the file's length in bytes and its header; beside a refusal the
// length is 0, the header has nothing in it and the version, else b'c' or b'd', is a blank.
#[repr(C)]
#[derive(Clone, Copy)]
pub struct Reading {
    pub refusal: usize,
    pub line: u64,
    pub column: usize,
    pub length: usize,
    pub header: Header,
    pub version: u8,
}
