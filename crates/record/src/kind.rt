// The kind of a line.
ghost use Rattle.std.specs.Prelude.{◌≡◌, true};
ghost use Rattle.record.specs.LineKinds.{no_kind, first_kind, second_kind, satellites_kind, accuracies_kind, characters_kind, floats_kind, integers_kind, comment_kind, epoch_kind, position_kind, velocity_kind, position_correlation_kind, velocity_correlation_kind, end_kind, told_kind, hash_kind, plus_kind, percent_kind, e_kind, kind_by, kind_of};

use crate::LineKind;
use header::Rules;

// A number for each kind of line, in the order of the records, and 0 for none: `#d`, `##`, `+ `, `++`, `%c`, `%f`, `%i`, `/*`, `* `, P, V, EP, EV, EOF.
pub const NO_KIND: u64 = 0;

pub const FIRST_KIND: u64 = 1;

pub const SECOND_KIND: u64 = 2;

pub const SATELLITES_KIND: u64 = 3;

pub const ACCURACIES_KIND: u64 = 4;

pub const CHARACTERS_KIND: u64 = 5;

pub const FLOATS_KIND: u64 = 6;

pub const INTEGERS_KIND: u64 = 7;

pub const COMMENT_KIND: u64 = 8;

pub const EPOCH_KIND: u64 = 9;

pub const POSITION_KIND: u64 = 10;

pub const VELOCITY_KIND: u64 = 11;

pub const POSITION_CORRELATION_KIND: u64 = 12;

pub const VELOCITY_CORRELATION_KIND: u64 = 13;

pub const END_KIND: u64 = 14;

// The numbers of the kinds are those of the definitions.
pub fn kinds_hold() -> bool
    ensures result { result ≡ true }
    ensures none { NO_KIND ≡ no_kind }
    ensures first { FIRST_KIND ≡ first_kind }
    ensures second { SECOND_KIND ≡ second_kind }
    ensures satellites { SATELLITES_KIND ≡ satellites_kind }
    ensures accuracies { ACCURACIES_KIND ≡ accuracies_kind }
    ensures characters { CHARACTERS_KIND ≡ characters_kind }
    ensures floats { FLOATS_KIND ≡ floats_kind }
    ensures integers { INTEGERS_KIND ≡ integers_kind }
    ensures comment { COMMENT_KIND ≡ comment_kind }
    ensures epoch { EPOCH_KIND ≡ epoch_kind }
    ensures position { POSITION_KIND ≡ position_kind }
    ensures velocity { VELOCITY_KIND ≡ velocity_kind }
    ensures position_correlation { POSITION_CORRELATION_KIND ≡ position_correlation_kind }
    ensures velocity_correlation { VELOCITY_CORRELATION_KIND ≡ velocity_correlation_kind }
    ensures end { END_KIND ≡ end_kind }
{
    true
}

// `#` and its version's letter, or `##`.
fn hash_kind(letter: u8, second: u8) -> LineKind
    ensures { result ≡ hash_kind letter second }
{
    match second {
        b'#' => LineKind::Second,
        _ if second == letter => LineKind::First,
        _ => LineKind::Other,
    }
}

fn plus_kind(second: u8) -> LineKind
    ensures { result ≡ plus_kind second }
{
    match second {
        b' ' => LineKind::Satellites,
        b'+' => LineKind::Accuracies,
        _ => LineKind::Other,
    }
}

fn percent_kind(second: u8) -> LineKind
    ensures { result ≡ percent_kind second }
{
    match second {
        b'c' => LineKind::Characters,
        b'f' => LineKind::Floats,
        b'i' => LineKind::Integers,
        _ => LineKind::Other,
    }
}

fn e_kind(second: u8, third: u8) -> LineKind
    ensures { result ≡ e_kind second third }
{
    match (second, third) {
        (b'P', _) => LineKind::PositionCorrelation,
        (b'V', _) => LineKind::VelocityCorrelation,
        (b'O', b'F') => LineKind::EndOfFile,
        _ => LineKind::Other,
    }
}

// The kind of a line by its first three bytes, blanks where it is shorter, in the version of this letter: `/*` is a comment.
pub fn kind_by(letter: u8, first: u8, second: u8, third: u8) -> LineKind
    ensures result { told_kind result ≡ told_kind (kind_by letter first second third) }
{
    match (first, second) {
        (b'P', _) => LineKind::Position,
        (b'V', _) => LineKind::Velocity,
        (b'*', b' ') => LineKind::Epoch,
        (b'E', _) => e_kind(second, third),
        (b'+', _) => plus_kind(second),
        (b'/', b'*') => LineKind::Comment,
        (b'%', _) => percent_kind(second),
        (b'#', _) => hash_kind(letter, second),
        _ => LineKind::Other,
    }
}

// The kind of a line of 80 columns in the version of these rules: `PG07` is a position, `#c` in version d is none.
#[tactic(auto, unfolding(crate::specs::LineKinds::kind_of))]
pub fn kind_of(rules: Rules, line: &[u8; 80]) -> LineKind
    ensures result { told_kind result ≡ told_kind (kind_of rules line.now) }
{
    kind_by(rules.letter, line[0], line[1], line[2])
}
