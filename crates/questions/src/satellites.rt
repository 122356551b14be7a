// Satellites of one whole file, asked for by identifier: the file's own refusal first, then 13 with line 0.
ghost use Rattle.std.specs.Prelude.{◌≡◌, ◌&&◌, ◌+◌, ◌-◌, ◌*◌, ◌≤◌, length, nat_eq, position};
ghost use Rattle.laws.specs.Tests.{within};
ghost use Rattle.field.specs.Digits.{is_digit};
ghost use Rattle.lines.specs.Lines.{lines_of};
ghost use Rattle.header.specs.Rules.{max_satellites};
ghost use Rattle.header.specs.Versions.{rules_in};
ghost use Rattle.file.specs.Table.{count_of};
ghost use Rattle.reader.specs.Reading.{file_of, identifiers_of};
ghost use Rattle.questions.specs.Questions.{identifier_named, no_satellite, satellite_in, satellite_answer};

use crate::types::SatelliteAnswer;
use header::{Header, Rules};

// The number of an identifier among others.
fn place_of(identifier: u64, identifiers: &[u64]) -> Option<usize>
    ensures { result ≡ position (λ other. nat_eq identifier other) identifiers.now }
{
    identifiers.iter().position(|other| identifier == *other)
}

// A refusal beside no satellite.
fn no_satellite(number: usize, line: u64, column: usize) -> SatelliteAnswer
    ensures { result ≡ no_satellite number line column }
{
    SatelliteAnswer {
        refusal: number,
        line,
        column,
        number: 0,
    }
}

// The number of an identifier among those of a header.
#[tactic(auto, using(crate::proofs::Asking::index_of_place))]
fn satellite_in(identifier: u64, identifiers: &[u64]) -> SatelliteAnswer
    ensures { result ≡ satellite_in identifier identifiers.now }
{
    let Some(number) = place_of(identifier, identifiers) else {
        return no_satellite(13, 0, 0);
    };
    SatelliteAnswer {
        refusal: 0,
        line: 0,
        column: 0,
        number: number as u64,
    }
}

// The number of an identifier among the identifiers of some lines, as many as they say and at most so many as there may be.
fn satellite_among(rules: Rules, bytes: &[u8], identifier: u64) -> SatelliteAnswer
    requires { (length (identifiers_of rules (lines_of bytes.now)) ≡ count_of rules (lines_of bytes.now)) × (count_of rules (lines_of bytes.now) ≤ max_satellites) }
    ensures { result ≡ satellite_in identifier (identifiers_of rules (lines_of bytes.now)) }
{
    let mut identifiers = [0u64; Header::MAX_SATELLITES as usize];
    let n = file::count_of(rules, bytes);
    fill::fill_slots(rules, bytes, false, n, &mut identifiers);
    satellite_in(identifier, &identifiers[..n as usize])
}

// Whether three bytes are an identifier's letter and digits.
fn is_named(letter: u8, tens: u8, ones: u8) -> bool
    ensures { result ≡ (within 65 90 letter && (is_digit tens && is_digit ones)) }
{
    (b'A'..=b'Z').contains(&letter) && tens.is_ascii_digit() && ones.is_ascii_digit()
}

// A digit's number, and 0 for all that stands below the digits.
fn figure(b: u8) -> u64
    ensures { result ≡ b - 48 }
{
    u64::from(b).saturating_sub(48)
}

// The number of two digits.
fn two_digits(tens: u8, ones: u8) -> u64
    ensures value { result ≡ (tens - 48) * 10 + (ones - 48) }
    ensures bound { result ≤ 2277 }
{
    figure(tens) * 10 + figure(ones)
}

// A letter's byte times 100, and a number.
fn identifier_code(letter: u8, number: u64) -> u64
    requires { number ≤ 2277 }
    ensures { result ≡ letter * 100 + number }
{
    u64::from(letter) * 100 + number
}

// The identifier that a text of three bytes names, as one number: 7107 for `G07`; 0, which is no satellite, for `G 7`, `g07`, `G00` and every other
// text.
#[tactic(auto, unfolding(crate::specs::Questions::identifier_named))]
pub fn identifier_of(text: &[u8]) -> u64
    ensures result { result ≡ identifier_named text.now }
{
    let [letter, tens, ones] = *text else {
        return 0;
    };
    let number = two_digits(tens, ones);
    if is_named(letter, tens, ones) && number != 0 {
        identifier_code(letter, number)
    } else {
        0
    }
}

// The number in the header of the satellite with this identifier, held as its letter's byte times 100 and its number (7107 for G07): 13 where
// the header has none such.
pub fn satellite_of(file: &[u8], identifier: u64) -> SatelliteAnswer
    ensures result { result ≡ satellite_answer (rules_in file.now) file.now (file_of (rules_in file.now) file.now) identifier }
{
    let rules = Rules::told_by(file);
    match scan::scan_whole(rules, file) {
        Err(refusal) => no_satellite(refusal.number, refusal.line, refusal.column),
        Ok(tally) => {
            let end = tally.end;
            satellite_among(rules, &file[0..end], identifier)
        }
    }
}
