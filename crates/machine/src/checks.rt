// What a line must agree with besides its own columns.
ghost use Rattle.std.specs.Prelude.{◌≡◌, not, position, nat_eq};
ghost use Rattle.laws.specs.Texts.{every, is_printable};
ghost use Rattle.record.specs.Agrees.{instant_in, second_agrees, letter_of, type_agrees};
ghost use Rattle.machine.specs.Faults.{first_unprintable};

use calendar::DAY;
use header::Moment;
use record::Second;

// Where the first byte outside 32 to 126 stands, counted from 0.
fn unprintable_at(line: &[u8]) -> Option<usize>
    ensures { result ≡ position (λ b. not (is_printable b)) line.now }
{
    line.iter().position(|b| !(32..=126).contains(b))
}

// The column of the first byte outside 32 to 126, counted from 1, in a line that has one.
#[tactic(auto, using(crate::proofs::Checking::first_unprintable_at))]
pub(crate) fn first_unprintable(line: &[u8]) -> usize
    ensures { result ≡ first_unprintable line.now }
{
    match unprintable_at(line) {
        Some(i) => i + 1,
        None => line.len(),
    }
}

// The instant of a date and time in 10^-8 s since MJD 0, or 0 where there is none: second 60 is none.
pub fn instant_in(m: Moment) -> u64
    ensures result { result ≡ instant_in m }
{
    calendar::instant(m.year, m.month, m.day, m.hour, m.minute, m.second8).unwrap_or(0)
}

// Whether week, seconds of week, MJD and fraction of line 2 are those of the start.
pub(crate) fn second_agrees(start8: u64, second: Second) -> bool
    ensures { result ≡ second_agrees start8 second }
{
    let Some(start) = calendar::week_of(start8) else {
        return false;
    };
    let day = start8 / DAY == second.mjd;
    let fraction = calendar::fraction_agrees(second.fraction13, start8 % DAY);
    ((start.week == second.week) & (start.second8 == second.seconds8)) & (day & fraction)
}

// Whether every identifier begins with a letter.
fn all_begin(letter: u64, identifiers: &[u64]) -> bool
    ensures { result ≡ every (λ identifier. nat_eq (letter_of identifier) letter) identifiers.now }
{
    identifiers
        .iter()
        .all(|identifier| identifier / 100 == letter)
}

// Whether a file type agrees with the identifiers: M with all, another with those that begin with it.
#[tactic(auto, unfolding(record::specs::Agrees::type_agrees))]
pub fn type_agrees(file_type: u8, identifiers: &[u64]) -> bool
    ensures result { result ≡ type_agrees file_type identifiers.now }
{
    file_type == b'M' || all_begin(u64::from(file_type), identifiers)
}
