// The note of a row: its mark, four deviations and six correlations.
ghost use Rattle.std.specs.Prelude.{◌≡◌, true, false, ◌+◌, ◌≤◌, length};
ghost use Rattle.record.specs.Rows.{note_width};
ghost use Rattle.canon.specs.Valid.{entry, deviation_valid, is_unnoted, correlation_valid, four_valid, ten_valid, is_noted, note_valid};
ghost use Rattle.canon.specs.Measured.{deviations_end, correlations_end, note_length};
ghost use Rattle.canon.specs.Spent.{spent};

use crate::numbers;
use field::sign::magnitude_of;
use record::notes::{LARGEST_CLOCK_DEVIATION, LARGEST_CORRELATION, LARGEST_DEVIATION, UNNOTED};

// Whether a number is the one that stands for unknown.
fn is_unnoted(note: &[i64], i: usize) -> bool
    requires { i + 1 ≤ length note.now }
    ensures { result ≡ is_unnoted (entry note.now i) }
{
    numbers::is_count(note, i, UNNOTED)
}

// Whether none of the ten is known.
fn none_known(note: &[i64]) -> bool
    requires { length note.now ≡ note_width }
    ensures { result ≡ ten_valid is_unnoted is_unnoted is_unnoted note.now }
{
    let a = (is_unnoted(note, 1) & is_unnoted(note, 2))
        & (is_unnoted(note, 3) & is_unnoted(note, 4));
    let b = (is_unnoted(note, 5) & is_unnoted(note, 6))
        & (is_unnoted(note, 7) & is_unnoted(note, 8));
    a & (b & (is_unnoted(note, 9) & is_unnoted(note, 10)))
}

// Whether four numbers after the mark are deviations.
fn deviations_valid(note: &[i64]) -> bool
    requires { length note.now ≡ note_width }
    ensures { result ≡ four_valid (deviation_valid false) (deviation_valid true) 1 note.now }
{
    (numbers::known_valid(note, 1, LARGEST_DEVIATION, UNNOTED)
        & numbers::known_valid(note, 2, LARGEST_DEVIATION, UNNOTED))
        & (numbers::known_valid(note, 3, LARGEST_DEVIATION, UNNOTED)
            & numbers::known_valid(note, 4, LARGEST_CLOCK_DEVIATION, UNNOTED))
}

// Whether a number is a correlation.
fn correlation_valid(note: &[i64], i: usize) -> bool
    requires { i + 1 ≤ length note.now }
    ensures { result ≡ correlation_valid (entry note.now i) }
{
    (magnitude_of(note[i]) <= LARGEST_CORRELATION) | is_unnoted(note, i)
}

// Whether the ten numbers after the mark are deviations and correlations.
fn ten_valid(note: &[i64]) -> bool
    requires { length note.now ≡ note_width }
    ensures { result ≡ ten_valid (deviation_valid false) (deviation_valid true) correlation_valid note.now }
{
    let a = deviations_valid(note);
    let b = (correlation_valid(note, 5) & correlation_valid(note, 6))
        & (correlation_valid(note, 7) & correlation_valid(note, 8));
    a & (b & (correlation_valid(note, 9) & correlation_valid(note, 10)))
}

// The last column of a note that has no correlation.
#[tactic(auto, unfolding(crate::specs::Measured::deviations_end))]
fn deviations_end(note: &[i64]) -> usize
    requires { length note.now ≡ note_width }
    ensures value { result ≡ deviations_end note.now }
    ensures upper_bound { result ≤ 80 }
{
    let x = numbers::end_at(note, 1, UNNOTED, 8, 2);
    let y = numbers::end_at(note, 2, UNNOTED, 13, x);
    let z = numbers::end_at(note, 3, UNNOTED, 18, y);
    numbers::end_at(note, 4, UNNOTED, 26, z)
}

// The bytes of a note's line, with its LF.
#[tactic(auto, unfolding(crate::specs::Measured::correlations_end))]
fn line_length(note: &[i64]) -> usize
    requires { length note.now ≡ note_width }
    ensures { result ≡ correlations_end note.now + 1 }
{
    let none = deviations_end(note);
    let xy = numbers::end_at(note, 5, UNNOTED, 35, none);
    let xz = numbers::end_at(note, 6, UNNOTED, 44, xy);
    let xc = numbers::end_at(note, 7, UNNOTED, 53, xz);
    let yz = numbers::end_at(note, 8, UNNOTED, 62, xc);
    let yc = numbers::end_at(note, 9, UNNOTED, 71, yz);
    numbers::end_at(note, 10, UNNOTED, 80, yc) + 1
}

// Whether a record stood there.
fn is_noted(note: &[i64]) -> bool
    requires { length note.now ≡ note_width }
    ensures { result ≡ is_noted note.now }
{
    note[0] != 0
}

// What a note leaves of a room, where it is valid: where there is none, nothing is known.
#[tactic(auto, unfolding(crate::specs::Valid::note_valid, crate::specs::Measured::note_length))]
pub(crate) fn note_spent(note: &[i64], room: usize) -> Option<usize>
    requires { length note.now ≡ note_width }
    ensures { result ≡ spent (note_valid note.now) room (note_length note.now) }
{
    if !is_noted(note) {
        return none_known(note).then_some(room);
    }
    let valid = numbers::at_most(note, 0, 1) & ten_valid(note);
    valid.then_some(room.saturating_sub(line_length(note)))
}
