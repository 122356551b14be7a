// The header of a file as a value, its bounds, the letters and words that its fields may hold, and the rules of a version.
#![tactic(auto)]

ghost use Rattle.std.specs.Prelude.{◌≡◌, [], ◌∷◌};
ghost use Rattle.layout.specs.Kind.{is_one_of, is_listed};
ghost use Rattle.header.specs.Rules.{slot_lines};
ghost use Rattle.header.specs.Letters.{modes, file_types, time_systems};

mod making;
mod types;
mod versions;

pub use making::texts_printable;
pub use types::{Bases, Header, HeaderAnswer, Moment, Rules, Texts, Version};

// Whether a byte is the letter of a mode: P or V.
pub fn is_mode(b: u8) -> bool
    ensures result { result ≡ is_one_of b modes }
{
    (b == b'P') | (b == b'V')
}

// Whether a byte is the letter of a file type: G, M, R, L, S, I, E, C or J; A is none.
pub fn is_file_type(b: u8) -> bool
    ensures result { result ≡ is_one_of b file_types }
{
    (b == b'G')
        | (b == b'M')
        | (b == b'R')
        | (b == b'L')
        | (b == b'S')
        | (b == b'I')
        | (b == b'E')
        | (b == b'C')
        | (b == b'J')
}

// Whether three bytes are a time system: GPS, GLO, GAL, BDT, TAI, UTC, IRN or QZS; GMT is none.
pub fn is_time_system(a: u8, b: u8, c: u8) -> bool
    ensures result { result ≡ is_listed (a ∷ b ∷ c ∷ []) time_systems }
{
    let gps = (a == b'G') & (b == b'P') & (c == b'S');
    let glo = (a == b'G') & (b == b'L') & (c == b'O');
    let gal = (a == b'G') & (b == b'A') & (c == b'L');
    let bdt = (a == b'B') & (b == b'D') & (c == b'T');
    let tai = (a == b'T') & (b == b'A') & (c == b'I');
    let utc = (a == b'U') & (b == b'T') & (c == b'C');
    let irn = (a == b'I') & (b == b'R') & (c == b'N');
    let qzs = (a == b'Q') & (b == b'Z') & (c == b'S');
    gps | glo | gal | bdt | tai | utc | irn | qzs
}

// The most satellites that five `+ ` lines hold.
const IN_FIVE_LINES: u64 = 85;

// The `+ ` lines of n satellites, five at least: 5 for 85, 6 for 86.
pub fn slot_lines(n: u64) -> u64
    ensures result { result ≡ slot_lines n }
{
    if n <= IN_FIVE_LINES {
        return 5;
    }
    (n - 1) / 17 + 1
}
