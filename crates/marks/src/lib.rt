// Whether an identifier is named again, told by a mark for each: so a list is looked at once, and not once for each identifier.
#![tactic(auto)]

ghost use Rattle.std.specs.Prelude.{◌≡◌};
ghost use Rattle.laws.specs.Texts.{every};
ghost use Rattle.record.specs.Agrees.{repeats};
ghost use Rattle.marks.specs.Marks.{is_markable, is_new, all_new, marked_with, marked_all};

// The first and the last number that has a mark, A00 and Z99, and how many there are.
const FIRST_MARKED: u64 = 6500;

const LAST_MARKED: u64 = 9099;

pub const MARKS: usize = 2600;

// So few are compared in less time than all marks are cleared: as many as a line has.
const FEW: usize = 17;

// Sets the mark of a number, and tells whether it has one that was not set before.
#[tactic(auto, unfolding(crate::specs::Marks::is_new, crate::specs::Marks::marked_with))]
fn mark(marks: &mut [u8], number: u64) -> bool
    ensures result { result ≡ is_new marks.old number }
    ensures lent { marks.new ≡ marked_with number marks.old }
{
    if number < FIRST_MARKED {
        return false;
    }
    let place = (number - FIRST_MARKED) as usize;
    if place >= marks.len() {
        return false;
    }
    let new = marks[place] == 0;
    marks[place] = 1;
    new
}

// Marks identifiers one after the other, and tells whether each of them has a mark that was not set before: of G07, G08 and G07 it is not so.
#[tactic(auto, using(crate::proofs::Marking::marking))]
pub fn mark_identifiers(marks: &mut [u8], identifiers: &[u64]) -> bool
    ensures result { result ≡ all_new marks.old identifiers.now }
    ensures lent { marks.new ≡ marked_all identifiers.now marks.old }
{
    let mut all = true;
    for identifier in identifiers {
        all = mark(marks, *identifier) & all;
    }
    all
}

// Whether each of some numbers has a mark.
fn have_marks(numbers: &[u64]) -> bool
    ensures { result ≡ every is_markable numbers.now }
{
    numbers.iter().fold(
        true,
        |all, number| all & (FIRST_MARKED..=LAST_MARKED).contains(number),
    )
}

// Whether one of the new numbers stands among those known or earlier among the new, each compared with each.
fn compare_each(known: &[u64], new: &[u64]) -> bool
    ensures { result ≡ repeats known.now new.now }
{
    for (i, number) in new.iter().enumerate() {
        if known.contains(number) || new[..i].contains(number) {
            return true;
        }
    }
    false
}

// Whether one of the new identifiers stands among those known or earlier among the new. A few are compared, and so are numbers that have no mark.
#[tactic(auto, using(crate::proofs::Marking::telling))]
pub fn repeats_identifier(known: &[u64], new: &[u64]) -> bool
    ensures result { result ≡ repeats known.now new.now }
{
    if (known.len() <= FEW) & (new.len() <= FEW) {
        return compare_each(known, new);
    }
    let mut marks = [0u8; MARKS];
    mark_identifiers(&mut marks, known);
    if mark_identifiers(&mut marks, new) {
        return false;
    }
    if have_marks(new) {
        return true;
    }
    compare_each(known, new)
}
