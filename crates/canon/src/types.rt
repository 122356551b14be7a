use header::Header;

// The answer of a writing: the refusal (0 written, 12 too little room, 13 no valid table, 17 a table outside the bounds of the version) and the length of the form in bytes, 0 beside a refusal.
#[repr(C)]
#[derive(Clone, Copy)]
pub struct Measured {
    pub refusal: usize,
    pub length: usize,
}

// A table to be written: its header and the lists beside it, of which as many first places are its own as the header counts.
#[derive(Clone, Copy)]
pub struct Table<'a> {
    pub header: Header,
    pub identifiers: &'a [u64],
    pub exponents: &'a [u64],
    pub comments: &'a [u8],
    pub rows: &'a [i64],
}

// Why a table is not written: its form is longer than the room, no version has it, or not the version that is asked for.
#[derive(Clone, Copy)]
pub(crate) enum Unwritten {
    TooLittleRoom,
    Invalid,
    OutsideVersion,
}
