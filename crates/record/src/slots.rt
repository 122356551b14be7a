// The lines of satellites: 17 slots of three columns from column 10 on.
ghost use Rattle.std.specs.Prelude.{◌≡◌, [], ◌∷◌, ◌+◌, ◌≤◌};
ghost use Rattle.layout.specs.Layout.{slot_at, values_of, numbers_of};
ghost use Rattle.record.specs.Steps.{after, after_all, number_of};
ghost use Rattle.record.specs.SlotLines.{slot_kind, slot_items, slot_symbol, satellites_of, more_of};

use crate::fields::Judge;
use crate::types::{Satellites, Slots};
use header::Rules;

// The largest accuracy exponent of a header.
pub const MAX_ACCURACY: u64 = 999;

impl<'a> Judge<'a> {
    // A slot of a satellite, an accuracy or an identifier, or one after the last satellite, which holds `  0`.
    #[tactic(auto, unfolding(crate::specs::Steps::after))]
    fn slot(&mut self, accuracies: bool, used: bool, first: usize) -> u64
        requires { (1 ≤ first) × (first + 2 ≤ 80) }
        ensures judged { self.new ≡ after (slot_at used (slot_kind accuracies) first) self.old }
        ensures value { result ≡ number_of (slot_at used (slot_kind accuracies) first) self.old }
    {
        if !used {
            self.fixed(8, b"  0", 0, first, first + 2);
            return 0;
        }
        if accuracies {
            return self.whole(0, MAX_ACCURACY, first, first, first + 2);
        }
        self.identifier(first, first + 2)
    }

    // The slots of a line, of which the first `left` are of satellites.
    fn slots(&mut self, accuracies: bool, left: u64) -> [u64; 17]
        ensures judged { self.new ≡ after_all (slot_items accuracies left) self.old }
        ensures value { result ≡ numbers_of (values_of (slot_items accuracies left) self.old.line.now) }
    {
        let mut values = [0; 17];
        for k in 0..17 {
            values[k] = self.slot(accuracies, (k as u64) < left, 10 + 3 * k);
        }
        values
    }
}

// The first `+ ` line: the number of satellites that it says decides its slots. `  0` is 7 at column 4.
pub fn read_satellites(rules: Rules, line: &[u8; 80]) -> Satellites
    ensures result { result ≡ satellites_of rules line.now }
{
    let mut judge = Judge::of(line);
    judge.symbols(b'+', b' ');
    judge.unused(3, 3);
    let count = judge.whole(1, rules.most_satellites, 4, 4, 6);
    judge.unused(7, 9);
    let identifiers = judge.slots(false, count);
    judge.unused(61, 80);
    Satellites {
        fault: judge.fault,
        count,
        identifiers,
    }
}

// The second column of the symbol of a further line: `+ ` or `++`.
fn symbol_end(accuracies: bool) -> u8
    ensures { 43 ∷ result ∷ [] ≡ slot_symbol accuracies }
{
    if accuracies { b'+' } else { b' ' }
}

// A further `+ ` line, or a `++` line where `accuracies` says so, of which the first `left` slots are of satellites.
pub fn read_slots(line: &[u8; 80], accuracies: bool, left: u64) -> Slots
    ensures result { result ≡ more_of accuracies left line.now }
{
    let mut judge = Judge::of(line);
    judge.symbols(b'+', symbol_end(accuracies));
    judge.unused(3, 9);
    let values = judge.slots(accuracies, left);
    judge.unused(61, 80);
    Slots {
        fault: judge.fault,
        values,
    }
}
