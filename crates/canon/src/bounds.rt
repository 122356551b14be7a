// The bounds of a header in a version, and the lengths of the lists beside it.
ghost use Rattle.std.specs.Prelude.{◌≡◌, ◌&&◌, ◌/◌, leb, length};
ghost use Rattle.header.specs.Header.{max_place_base, max_clock_base};
ghost use Rattle.canon.specs.Table.{cell_width, cells_in};
ghost use Rattle.canon.specs.Valid.{is_instant, texts_fit, times_valid, counts_valid, words_valid, header_valid, lists_long, counts_hold};
ghost use Rattle.canon.specs.Spent.{lent_table};

use crate::types::Table;
use calendar::DAY;
use header::{Bases, Header, Rules, Texts};
use laws::within;
use record::plain::COMMENT_WIDTH;
use record::rows::{BOTH_WIDTH, ROW_WIDTH};

// Whether an instant lies on a day from 1980-01-06 to 2099-12-31.
#[tactic(auto, unfolding(crate::specs::Valid::is_instant))]
fn is_instant(at8: u64) -> bool
    ensures { result ≡ is_instant at8 }
{
    within(44_244, 88_068, at8 / DAY)
}

// Whether start, epochs, interval and the last epoch are within their bounds.
#[tactic(auto, unfolding(crate::specs::Valid::times_valid))]
fn times_valid(h: Header) -> bool
    ensures { result ≡ times_valid h }
{
    let begun = is_instant(h.start8)
        & within(1, Header::MAX_EPOCHS, h.epochs)
        & within(1, Header::MAX_INTERVAL, h.interval8);
    begun && is_instant(h.start8 + (h.epochs - 1) * h.interval8)
}

// Whether the version has so many satellites and comments.
#[tactic(auto, unfolding(crate::specs::Valid::counts_valid))]
fn counts_valid(rules: Rules, h: Header) -> bool
    ensures { result ≡ counts_valid rules h }
{
    within(1, rules.most_satellites, h.satellites)
        & within(rules.fewest_comments, rules.most_comments, h.comments)
}

// Whether the texts have bytes 32 to 126 alone.
#[tactic(auto, unfolding(crate::specs::Valid::texts_fit))]
fn texts_fit(texts: Texts) -> bool
    ensures { result ≡ texts_fit texts }
{
    header::texts_printable(texts)
}

// Whether two bases fit their columns.
fn bases_fit(bases: Bases) -> bool
    ensures { result ≡ (leb bases.place max_place_base && leb bases.clock max_clock_base) }
{
    (bases.place <= Header::MAX_PLACE_BASE) & (bases.clock <= Header::MAX_CLOCK_BASE)
}

// Whether texts, file type, time system and bases are such as their fields may hold.
#[tactic(auto, unfolding(crate::specs::Valid::words_valid))]
fn words_valid(h: Header) -> bool
    ensures { result ≡ words_valid h }
{
    let texts = h.texts;
    let system = h.time_system;
    let bases = h.bases;
    let timed = header::is_time_system(system[0], system[1], system[2]);
    texts_fit(texts) & (header::is_file_type(h.file_type) & (timed & bases_fit(bases)))
}

// Whether a header keeps the bounds of the version.
#[tactic(auto, unfolding(crate::specs::Valid::header_valid))]
fn header_valid(rules: Rules, h: Header) -> bool
    ensures { result ≡ header_valid rules h }
{
    times_valid(h) & (counts_valid(rules, h) & words_valid(h))
}

// The numbers of one satellite in one epoch: of a row, in mode V of both.
pub fn cell_width(velocity: bool) -> usize
    ensures result { result ≡ cell_width velocity }
{
    if velocity { BOTH_WIDTH } else { ROW_WIDTH }
}

// Whether so many numbers have a row for each satellite and epoch.
fn rows_long(h: Header, r: usize) -> bool
    ensures { result ≡ leb (cells_in h) (r / cell_width h.velocity) }
{
    let most = (r / cell_width(h.velocity)) as u64;
    h.satellites
        .checked_mul(h.epochs)
        .is_some_and(|cells| cells <= most)
}

impl<'a> Table<'a> {
    // Whether the lists are as long as the counts say.
    #[tactic(auto, unfolding(crate::specs::Valid::lists_long))]
    fn lists_long(self) -> bool
        ensures { result ≡ lists_long self.entry.header (length self.entry.identifiers.now) (length self.entry.exponents.now) (length self.entry.comments.now) (length self.entry.rows.now) }
    {
        let h = self.header;
        ((h.satellites <= self.identifiers.len() as u64)
            & (h.satellites <= self.exponents.len() as u64))
            & ((h.comments <= (self.comments.len() / COMMENT_WIDTH) as u64)
                & rows_long(h, self.rows.len()))
    }

    // Whether the header keeps the bounds of the version and the lists are as long as it says.
    #[tactic(auto, unfolding(crate::specs::Valid::counts_hold))]
    pub(crate) fn counts_hold(self, rules: Rules) -> bool
        ensures { result ≡ counts_hold rules (lent_table self.entry) }
    {
        header_valid(rules, self.header) & self.lists_long()
    }
}
