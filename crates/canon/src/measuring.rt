// A table judged and its canonical form measured, before a byte is written.
ghost use Rattle.std.specs.Prelude.{◌≡◌, false, cond, ◌&&◌, ◌+◌, ◌*◌, ◌≤◌, length};
ghost use Rattle.header.specs.Rules.{max_epochs, d};
ghost use Rattle.header.specs.Versions.{rules_of};
ghost use Rattle.record.specs.Plain.{comment_width};
ghost use Rattle.layout.specs.Inking.{text_end};
ghost use Rattle.canon.specs.Table.{cell_width, cells_in, table_of, table_identifiers, exponents_of, comments_of, rows_of};
ghost use Rattle.canon.specs.Valid.{identifiers_valid, exponents_valid, comments_valid, rows_valid, valid};
ghost use Rattle.canon.specs.Measured.{first_length, opening_length, form_length, measured_in};
ghost use Rattle.canon.specs.declared.types.Unwritten.TheVariants.{Invalid, OutsideVersion};
ghost use Rattle.canon.specs.Spent.{spent, lent_table, number_of, told};

use crate::types::{Measured, Table, Unwritten};
use crate::{bounds, lists, numbers};
use header::{Header, Rules, Texts, Version};
use record::plain::COMMENT_WIDTH;

impl Unwritten {
    // The number of a refusal.
    fn number(self) -> usize
        ensures { result ≡ number_of self }
    {
        match self {
            Unwritten::TooLittleRoom => 12,
            Unwritten::Invalid => 13,
            Unwritten::OutsideVersion => 17,
        }
    }
}

impl From<Result<usize, Unwritten>> for Measured {
    ghost from_gives = { λ answer measured. measured ≡ told answer };

    fn from(answer: Result<usize, Unwritten>) -> Measured {
        match answer {
            Ok(length) => Measured { refusal: 0, length },
            Err(why) => Measured {
                refusal: why.number(),
                length: 0,
            },
        }
    }
}

// The last column of a text that stands after so many columns and is not blank; else the column before.
#[tactic(auto, using(crate::proofs::Parted::shorter))]
fn text_end(before: usize, text: &[u8], earlier: usize) -> usize
    requires { (before + length text.now ≤ 60) × (earlier ≤ 60) }
    ensures value { result ≡ text_end before text.now earlier }
    ensures upper_bound { result ≤ 60 }
{
    let n = layout::trimmed_length(text);
    if n == 0 {
        return earlier;
    }
    before + n
}

// The bytes of line 1.
#[tactic(auto, unfolding(crate::specs::Measured::first_length))]
fn first_length(t: Texts) -> usize
    ensures value { result ≡ first_length t }
    ensures upper_bound { result ≤ 61 }
{
    let data_used = t.data_used;
    let coordinates = t.coordinates;
    let orbit = t.orbit;
    let agency = t.agency;
    let a = text_end(40, &data_used, 39);
    let b = text_end(46, &coordinates, a);
    let c = text_end(52, &orbit, b);
    text_end(56, &agency, c) + 1
}

// The bytes of the lines before the comments.
#[tactic(auto, unfolding(crate::specs::Measured::opening_length, header::specs::Rules::slot_lines))]
fn opening_length(h: Header) -> usize
    requires { h.satellites ≤ 1_152_921_504_606_846_976 }
    ensures { result ≡ opening_length h }
{
    let texts = h.texts;
    let lines = header::slot_lines(h.satellites) as usize;
    first_length(texts) + 61 * (2 * lines + 7)
}

impl<'a> Table<'a> {
    // Whether the identifiers and their exponents are valid.
    #[tactic(auto, using(crate::proofs::Parted::every_all), unfolding(crate::specs::Valid::exponents_valid))]
    fn slots_valid(self) -> bool
        requires { (self.header.satellites ≤ length self.identifiers.now) × (self.header.satellites ≤ length self.exponents.now) }
        ensures { result ≡ (identifiers_valid self.entry.header.file_type (table_identifiers (lent_table self.entry)) && exponents_valid (exponents_of (lent_table self.entry))) }
    {
        let n = self.header.satellites as usize;
        lists::identifiers_valid(self.header.file_type, &self.identifiers[..n])
            & lists::exponents_valid(&self.exponents[..n])
    }

    // What the form leaves of a room, where the comments and rows are valid.
    #[tactic(auto, unfolding(crate::specs::Measured::form_length))]
    fn lines_spent(self, rules: Rules, room: usize) -> Option<usize>
        requires { (self.header.comments * comment_width ≤ length self.comments.now) × (cells_in self.header * cell_width self.header.velocity ≤ length self.rows.now) × (self.header.satellites ≤ 1_152_921_504_606_846_976) × (self.header.epochs ≤ max_epochs) }
        ensures { result ≡ spent (comments_valid rules self.entry.header.comments (comments_of (lent_table self.entry)) && rows_valid self.entry.header.velocity (cells_in self.entry.header) (rows_of (lent_table self.entry))) room (form_length (lent_table self.entry)) }
    {
        let h = self.header;
        let comments = &self.comments[..h.comments as usize * COMMENT_WIDTH];
        let cells = (h.satellites * h.epochs) as usize;
        let rows = &self.rows[..cells * bounds::cell_width(h.velocity)];
        let opened = room.saturating_sub(opening_length(h));
        let said = lists::comments_spent(rules, h.comments, comments, opened)?;
        let dated = said.saturating_sub(32 * h.epochs as usize);
        let placed = numbers::rows_spent(h.velocity, cells, rows, dated)?;
        Some(placed.saturating_sub(4))
    }

    // The same of the whole table.
    fn spent(self, rules: Rules, room: usize) -> Option<usize>
        ensures { result ≡ spent (valid rules (lent_table self.entry)) room (form_length (lent_table self.entry)) }
    {
        if !self.counts_hold(rules) {
            return None;
        }
        if !self.slots_valid() {
            return None;
        }
        self.lines_spent(rules, room)
    }

    // Why a table is not written that is not valid in the version: SP3-d, whose bounds are the widest, may have it.
    fn invalid_in(self, version: Version) -> Unwritten
        requires { valid (rules_of version) (lent_table self) ≡ false }
        ensures { result ≡ cond (valid d (lent_table self.entry)) OutsideVersion Invalid }
    {
        match version {
            Version::C if self.spent(Rules::d(), 0).is_some() => Unwritten::OutsideVersion,
            _ => Unwritten::Invalid,
        }
    }

    // The length of the form in a version, where so much room is lent: what is not valid is told before a form that is too long. An exponent of 1000
    // in the header is not valid.
    fn measured_in(self, version: Version, most: usize) -> Result<usize, Unwritten>
        requires { most ≤ 9_223_372_036_854_775_807 }
        ensures { told result ≡ measured_in (rules_of version) (lent_table self.entry) most }
    {
        let room = most + 1;
        match self.spent(Rules::of(version), room) {
            None => Err(self.invalid_in(version)),
            Some(0) => Err(Unwritten::TooLittleRoom),
            Some(left) => Ok(room - left),
        }
    }
}

// What writing this table in a version into `out` answers, which stays as it is.
pub fn measure(
    version: Version,
    h: Header,
    identifiers: &[u64],
    exponents: &[u64],
    comments: &[u8],
    rows: &[i64],
    out: &[u8],
) -> Measured
    ensures result { result ≡ measured_in (rules_of version) (table_of h identifiers.now exponents.now comments.now rows.now) (length out.now) }
{
    let table = Table {
        header: h,
        identifiers,
        exponents,
        comments,
        rows,
    };
    Measured::from(table.measured_in(version, out.len()))
}

// The most bytes that a slice has.
const LONGEST: usize = 9_223_372_036_854_775_807;

// How long the form of a table in a version is, so that just so much can be lent: what writing it into the longest slice that there can be answers.
pub fn form_length(
    version: Version,
    h: Header,
    identifiers: &[u64],
    exponents: &[u64],
    comments: &[u8],
    rows: &[i64],
) -> Measured
    ensures result { result ≡ measured_in (rules_of version) (table_of h identifiers.now exponents.now comments.now rows.now) 9_223_372_036_854_775_807 }
{
    let table = Table {
        header: h,
        identifiers,
        exponents,
        comments,
        rows,
    };
    Measured::from(table.measured_in(version, LONGEST))
}
