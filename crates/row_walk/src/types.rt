use float_row::FloatRow;
use line_walk::Spot;

// Between two rows of a file: the spot, and how many rows were passed.
#[repr(C)]
#[derive(Clone, Copy)]
pub struct RowWalk {
    pub spot: Spot,
    pub passed: u64,
}

// What comes next in a file: the P row of a satellite that has a place, or of one that has none; the end; or the refusal of a line. Epochs and
// satellites are counted from 0. A row without a place has no coordinates (NaN); its clock may be known.
#[derive(Clone, Copy)]
pub enum RowStep {
    At {
        epoch: u64,
        satellite: u64,
        row: FloatRow,
        next: RowWalk,
    },
    Absent {
        epoch: u64,
        satellite: u64,
        row: FloatRow,
        next: RowWalk,
    },
    End,
    Refused {
        number: usize,
        line: u64,
        column: usize,
    },
}
