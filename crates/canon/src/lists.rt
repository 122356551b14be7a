// Identifiers, exponents and comments of a table.
ghost use Rattle.std.specs.Prelude.{◌≡◌, cond, ◌+◌, ◌*◌, ◌≤◌, eqb, leb, length};
ghost use Rattle.std.specs.List.{list_all};
ghost use Rattle.layout.specs.Kind.{is_identifier};
ghost use Rattle.record.specs.Plain.{comment_width};
ghost use Rattle.record.specs.SlotLines.{max_accuracy};
ghost use Rattle.canon.specs.Valid.{identifiers_valid, comment_columns, comment_valid, comments_valid};
ghost use Rattle.canon.specs.Measured.{comment_length, comments_length};
ghost use Rattle.canon.specs.Spent.{spent};

use header::Rules;
use laws::within;
use record::plain::COMMENT_WIDTH;
use record::slots::MAX_ACCURACY;

// Whether a number is an identifier: 7107 is G07, 7100 is none.
fn is_identifier(code: u64) -> bool
    ensures { result ≡ is_identifier code }
{
    within(65, 90, code / 10 / 10) & (0 < code / 10 % 10 * 10 + code % 10)
}

// Whether each of some numbers is one.
fn are_identifiers(identifiers: &[u64]) -> bool
    ensures { result ≡ list_all is_identifier identifiers.now }
{
    identifiers.iter().all(|code| is_identifier(*code))
}

// Whether identifiers are such, all different, and as the file type says.
#[tactic(auto, using(crate::proofs::Parted::every_all), unfolding(crate::specs::Valid::identifiers_valid))]
pub(crate) fn identifiers_valid(file_type: u8, identifiers: &[u64]) -> bool
    ensures { result ≡ identifiers_valid file_type identifiers.now }
{
    are_identifiers(identifiers)
        && !marks::repeats_identifier(&[], identifiers)
        && machine::type_agrees(file_type, identifiers)
}

// Whether every exponent of a header is within its bound.
pub(crate) fn exponents_valid(exponents: &[u64]) -> bool
    ensures { result ≡ list_all (λ n. leb n max_accuracy) exponents.now }
{
    exponents.iter().all(|n| *n <= MAX_ACCURACY)
}

// The columns of a line.
const COLUMNS: u64 = 80;

// The columns that the text of a comment may have in the version.
fn comment_columns(rules: Rules) -> usize
    ensures { result ≡ comment_columns rules }
{
    COLUMNS.min(rules.comment_columns).saturating_sub(3) as usize
}

// The bytes of a comment's line whose text has so many without its trailing blanks.
fn comment_length(text: usize) -> usize
    requires { text ≤ comment_width }
    ensures { result ≡ cond (eqb text 0) 2 (3 + text) + 1 }
{
    if text == 0 {
        return 3;
    }
    text + 4
}

// What a stored comment leaves of a room, where it is valid.
#[tactic(auto, using(crate::proofs::Parted::shorter), unfolding(crate::specs::Valid::comment_valid, crate::specs::Measured::comment_length))]
fn comment_spent(rules: Rules, text: &[u8], room: usize) -> Option<usize>
    requires { length text.now ≡ comment_width }
    ensures { result ≡ spent (comment_valid rules text.now) room (comment_length text.now) }
{
    let n = layout::trimmed_length(text);
    let valid = layout::is_printable(text) & (n <= comment_columns(rules));
    valid.then_some(room.saturating_sub(comment_length(n)))
}

// What so many of them leave.
pub(crate) fn comments_spent(rules: Rules, count: u64, bytes: &[u8], room: usize) -> Option<usize>
    requires { length bytes.now ≡ count * comment_width }
    ensures { result ≡ spent (comments_valid rules count bytes.now) room (comments_length count bytes.now) }
{
    let mut left = room;
    for text in bytes.chunks_exact(COMMENT_WIDTH) {
        left = comment_spent(rules, text, left)?;
    }
    Some(left)
}
