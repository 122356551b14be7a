use float_row::FloatRow;

// Where the text of a comment lies in its file: first byte and length, both 0 beside a refusal.
#[repr(C)]
#[derive(Clone, Copy)]
pub struct CommentAnswer {
    pub refusal: usize,
    pub line: u64,
    pub column: usize,
    pub at: usize,
    pub length: usize,
}

// The number of a satellite in the header, counted from 0; 0 beside a refusal.
#[repr(C)]
#[derive(Clone, Copy)]
pub struct SatelliteAnswer {
    pub refusal: usize,
    pub line: u64,
    pub column: usize,
    pub number: u64,
}

// Where the P line of an epoch and a satellite begins in its file; 0 beside a refusal.
#[repr(C)]
#[derive(Clone, Copy)]
pub struct RowBegins {
    pub refusal: usize,
    pub line: u64,
    pub column: usize,
    pub at: usize,
}

// The row of the adjustment; beside a refusal both place and clock are absent.
#[repr(C)]
#[derive(Clone, Copy)]
pub struct RowAnswer {
    pub refusal: usize,
    pub line: u64,
    pub column: usize,
    pub row: FloatRow,
}
