// The lines of satellites written: 17 slots of three columns from column 10 on.
ghost use Rattle.std.specs.Prelude.{◌≡◌, ◌+◌, ◌-◌, ◌≤◌, length};
ghost use Rattle.layout.specs.Kind.{shown_in};
ghost use Rattle.layout.specs.Kind.Held.{one};
ghost use Rattle.layout.specs.Layout.{slot_for, ones_of};
ghost use Rattle.layout.specs.Inking.{text_end, end_from, line_end, inked_whole, inked};
ghost use Rattle.layout.specs.Line.{Lays};
ghost use Rattle.record.specs.SlotLines.{slot_kind, slot_items, slot_symbol, satellite_items, satellites_values, satellites_line, more_items, more_line};

use crate::columns;
use crate::ended::lay_ended;
use header::Rules;
use record::{Satellites, Slots};

// A slot of a satellite, an accuracy or an identifier, or one after the last, in all of `out`.
fn put_slot(out: &mut [u8], accuracies: bool, used: bool, value: u64)
    requires { length out.old ≡ 3 }
    ensures { out.new ≡ shown_in (slot_for used (slot_kind accuracies)) 3 (one value) }
{
    match (used, accuracies) {
        (false, _) => out.copy_from_slice(b"  0"),
        (true, true) => columns::put_number(out, value),
        (true, false) => columns::put_identifier(out, value),
    }
}

// The same in the columns of a line from `first` on.
fn ink_slot(line: &mut [u8], accuracies: bool, used: bool, value: u64, first: usize)
    requires { (1 ≤ first) × (first ≤ 58) }
    ensures { line.new ≡ inked_whole first (first + 2) (shown_in (slot_for used (slot_kind accuracies)) 3 (one value)) line.old }
{
    let last = first + 2;
    columns::ink_in(line, first, last, |part| {
        put_slot(part, accuracies, used, value)
    });
}

// The slots of a line, of which the first `left` are of satellites.
fn put_slots(line: &mut [u8], accuracies: bool, left: u64, values: &[u64; 17])
    ensures { line.new ≡ inked (slot_items accuracies left) (ones_of values.now) line.old }
{
    for (k, value) in values.iter().enumerate() {
        ink_slot(line, accuracies, (k as u64) < left, *value, 10 + 3 * k);
    }
}

// The last column of a slot that is not blank, as an identifier and a slot after the last never are; else the end of what stands before it.
fn slot_end(accuracies: bool, used: bool, value: u64, first: usize, earlier: usize) -> usize
    requires { (1 ≤ first) × (first ≤ 58) }
    ensures { result ≡ text_end (first - 1) (shown_in (slot_for used (slot_kind accuracies)) 3 (one value)) earlier }
{
    let last = first + 2;
    if used && accuracies {
        return columns::whole_end(value, first, last, earlier);
    }
    last
}

// The same of the slots of a line.
fn slots_end(accuracies: bool, left: u64, values: &[u64; 17], earlier: usize) -> usize
    ensures { result ≡ end_from earlier (slot_items accuracies left) (ones_of values.now) }
{
    let mut end = earlier;
    for (k, value) in values.iter().enumerate() {
        end = slot_end(accuracies, (k as u64) < left, *value, 10 + 3 * k, end);
    }
    end
}

// The last column of the first `+ ` line that is not blank.
fn satellites_end(rules: Rules, s: Satellites) -> usize
    ensures { result ≡ line_end (satellite_items rules s.count) (satellites_values s) }
{
    let count = columns::whole_end(s.count, 4, 6, 1);
    slots_end(false, s.count, &s.identifiers, count)
}

// The first `+ ` line in the bytes up to its end.
fn put_satellites(line: &mut [u8], rules: Rules, s: Satellites)
    ensures { line.new ≡ inked (satellite_items rules s.count) (satellites_values s) line.old }
{
    columns::ink_fixed(line, b"+ ", 1, 2);
    columns::ink_blank(line, 3, 3);
    columns::ink_whole(line, s.count, 4, 6);
    columns::ink_blank(line, 7, 9);
    put_slots(line, false, s.count, &s.identifiers);
    columns::ink_blank(line, 61, 80);
}

// The first `+ ` line laid at the front of `out`, where there is room, and its length in any case.
pub fn write_satellites(rules: Rules, s: Satellites, out: &mut [u8]) -> usize
    ensures lays { Lays (satellites_line rules s) out.old result out.new }
{
    let end = satellites_end(rules, s);
    lay_ended(end, out, |line| put_satellites(line, rules, s))
}

// The symbol of a further line.
fn symbol_of(accuracies: bool) -> [u8; 2]
    ensures { result ≡ slot_symbol accuracies }
{
    [b'+', if accuracies { b'+' } else { b' ' }]
}

// The last column of a further line that is not blank.
fn more_end(s: Slots, accuracies: bool, left: u64) -> usize
    ensures { result ≡ line_end (more_items accuracies left) (ones_of s.values) }
{
    let symbol = symbol_of(accuracies);
    let first = columns::text_end(&symbol, 1, 2, 0);
    slots_end(accuracies, left, &s.values, first)
}

// A further line in the bytes up to its end.
fn put_more(line: &mut [u8], s: Slots, accuracies: bool, left: u64)
    ensures { line.new ≡ inked (more_items accuracies left) (ones_of s.values) line.old }
{
    let symbol = symbol_of(accuracies);
    columns::ink_fixed(line, &symbol, 1, 2);
    columns::ink_blank(line, 3, 9);
    put_slots(line, accuracies, left, &s.values);
    columns::ink_blank(line, 61, 80);
}

// The same of a further `+ ` line, or of a `++` line where `accuracies` says so, of which the first `left` slots are of satellites.
pub fn write_slots(s: Slots, accuracies: bool, left: u64, out: &mut [u8]) -> usize
    ensures lays { Lays (more_line accuracies left s) out.old result out.new }
{
    let end = more_end(s, accuracies, left);
    lay_ended(end, out, |line| put_more(line, s, accuracies, left))
}
