// What must stand next in a file and what its lines have said so far. Kinds of line are told by their numbers (`record::kind`).
#[repr(C)]
#[derive(Clone, Copy)]
pub struct State {
    // The kind of line that must come, and the kind that may stand here before it (none: `NO_KIND`).
    pub due: u64,
    pub also: u64,
    // How many lines must still come of a kind whose number is known, the one due too: `+ ` lines after the first, `++`, `%c`, `%f` and
    // `%i` lines, comments. 0 between the last comment that must come and the first epoch; 1 before any other line, the first `+ ` too.
    pub lines: u64,
    // Satellites of which a slot, or a row of this epoch, is still to come.
    pub left: u64,
    // Comments that may still stand.
    pub comments: u64,
    pub velocity: bool,
    pub satellites: u64,
    // Epochs still to come.
    pub epochs: u64,
    // The start, then the instant of the last epoch, in 10^-8 s since MJD 0; the next epoch is later by the gap: 0, then the interval.
    pub at8: u64,
    pub gap8: u64,
    pub interval8: u64,
}

// What must stand at a byte: the kind of line that must come, and the kind that may stand there before it (none: `NO_KIND`); the instant at which an
// epoch must stand and the satellite that a row must name, each 0 where none must come; whether the `+ ` line that stands there is refused
// with 8 though its slots are right: it names an identifier again.
#[repr(C)]
#[derive(Clone, Copy)]
pub struct Due {
    pub kind: u64,
    pub also: u64,
    pub instant8: u64,
    pub identifier: u64,
    pub repeats: bool,
}

// What a line does: its fault, by the paper's number and the column that it names (0 for none), or the state after it, or it ends the file.
#[derive(Clone, Copy)]
pub enum Verdict {
    Fault { number: usize, column: usize },
    Next(State),
    Finished,
}

// What the line reader finds at a byte: no complete line, a fault, the byte and the state after the line, or the byte after the file.
#[derive(Clone, Copy)]
pub enum LineRead {
    NoLine,
    Fault { number: usize, column: usize },
    Next { at: usize, state: State },
    Finished { at: usize },
}
// The identifiers that a `+ ` line brings: as many as `count` says, of the 17 of its slots.
#[derive(Clone, Copy)]
pub(crate) struct Brought {
    pub identifiers: [u64; 17],
    pub count: usize,
}
