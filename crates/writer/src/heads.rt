// The lines before the epochs, laid one directly after another from the first byte of `out` on.
ghost use Rattle.std.specs.Prelude.{◌≡◌, true, [], ◌∷◌, ◌*◌, ◌≤◌, length};
ghost use Rattle.lines.specs.Lent.{flat};
ghost use Rattle.layout.specs.Line.{Lays};
ghost use Rattle.record.specs.Opening.{first_line, second_line};
ghost use Rattle.record.specs.SlotLines.{satellites_line};
ghost use Rattle.record.specs.Descriptors.{float_items, integer_items, fixed_line};
ghost use Rattle.record.specs.Plain.{comment_width};
ghost use Rattle.canon.specs.Valid.{is_instant};
ghost use Rattle.canon.specs.Canonical.{first_shown, second_shown, satellites_shown, slot_lines_of, descriptor_lines, comment_lines};

use crate::shown;
use header::{Header, Rules};
use record::plain::COMMENT_WIDTH;
use record::{BaseLine, Descriptor, Satellites, Slots};

// Lines 1 and 2 and the first `+ ` line.
pub(crate) fn put_first(rules: Rules, h: Header, identifiers: &[u64], out: &mut [u8]) -> usize
    requires start8_value { is_instant h.start8 ≡ true }
    requires identifiers_in_bounds { length (flat (first_line rules (first_shown h) ∷ second_line (second_shown h) ∷ satellites_line rules (satellites_shown h.satellites identifiers.now) ∷ [])) ≤ length out.old }
    ensures { Lays (flat (first_line rules (first_shown h) ∷ second_line (second_shown h) ∷ satellites_line rules (satellites_shown h.satellites identifiers.now) ∷ [])) out.old result out.new }
{
    let mut at = draw::opening::write_first(rules, shown::first_shown(h), out);
    at += draw::opening::write_second(shown::second_shown(h), &mut out[at..]);
    let satellites = Satellites {
        fault: 0,
        count: h.satellites,
        identifiers: shown::seventeen(identifiers),
    };
    at + draw::slots::write_satellites(rules, satellites, &mut out[at..])
}

// So many further `+ ` lines, or `++` lines where `accuracies` says so, of these numbers.
pub(crate) fn put_slots(accuracies: bool, lines: u64, numbers: &[u64], out: &mut [u8]) -> usize
    requires { length (flat (slot_lines_of accuracies lines numbers.now)) ≤ length out.old }
    ensures { Lays (flat (slot_lines_of accuracies lines numbers.now)) out.old result out.new }
{
    let mut at = 0;
    let mut rest = numbers;
    for _ in 0..lines {
        let slots = Slots {
            fault: 0,
            values: shown::seventeen(rest),
        };
        at += draw::slots::write_slots(slots, accuracies, rest.len() as u64, &mut out[at..]);
        rest = rest.split_at(rest.len().min(17)).1;
    }
    at
}

// The second `%f` line and both `%i` lines: placeholders of zero.
fn put_zeros(out: &mut [u8]) -> usize
    requires { length (flat (fixed_line float_items ∷ fixed_line integer_items ∷ fixed_line integer_items ∷ [])) ≤ length out.old }
    ensures { Lays (flat (fixed_line float_items ∷ fixed_line integer_items ∷ fixed_line integer_items ∷ [])) out.old result out.new }
{
    let mut at = draw::descriptors::write_floats(out);
    at += draw::descriptors::write_integers(&mut out[at..]);
    at + draw::descriptors::write_integers(&mut out[at..])
}

// Both `%c`, both `%f` and both `%i` lines.
pub(crate) fn put_descriptors(h: Header, out: &mut [u8]) -> usize
    requires { length (flat (descriptor_lines h)) ≤ length out.old }
    ensures { Lays (flat (descriptor_lines h)) out.old result out.new }
{
    let time_system = h.time_system;
    let bases = h.bases;
    let descriptor = Descriptor {
        fault: 0,
        file_type: h.file_type,
        time_system,
    };
    let mut at = draw::descriptors::write_descriptor(descriptor, out);
    at += draw::descriptors::write_characters(&mut out[at..]);
    at += draw::descriptors::write_bases(BaseLine { fault: 0, bases }, &mut out[at..]);
    at + put_zeros(&mut out[at..])
}

// So many stored comments.
pub(crate) fn put_comments(count: u64, bytes: &[u8], out: &mut [u8]) -> usize
    requires bytes_len { length bytes.now ≡ count * comment_width }
    requires bytes_in_bounds { length (flat (comment_lines count bytes.now)) ≤ length out.old }
    ensures { Lays (flat (comment_lines count bytes.now)) out.old result out.new }
{
    let mut at = 0;
    let mut rest = bytes;
    for _ in 0..count {
        let (text, later) = rest.split_at(COMMENT_WIDTH);
        at += draw::plain::write_comment(text, &mut out[at..]);
        rest = later;
    }
    at
}
