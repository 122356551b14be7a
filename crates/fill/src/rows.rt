// A row stored: twelve numbers of its line, and behind them eleven of the note that stands directly after it, or of none.
ghost use Rattle.std.specs.Prelude.{◌≡◌, ◌++◌, ◌≤◌, length, drop};
ghost use Rattle.lines.specs.Lent.{over};
ghost use Rattle.lines.specs.Lines.{lines_of};
ghost use Rattle.header.specs.declared.types.Rules.{Rules};
ghost use Rattle.record.specs.Rows.{bare_width, note_width, row_width};
ghost use Rattle.file.specs.Kinds.{begins_note};
ghost use Rattle.file.specs.Table.{stored_signed, stored_mark, row_numbers, note_numbers, no_note, note_after};

use record::notes::UNNOTED;
use record::rows::{BARE_WIDTH, NOTE_WIDTH};
use record::{Note, Row, Signed};

fn stored_signed(s: Signed) -> i64
    ensures { result ≡ stored_signed s }
{
    stored_row::stored_number(s.negative, s.magnitude)
}

fn stored_mark(set: bool) -> i64
    ensures { result ≡ stored_mark set }
{
    stored_row::stored_number(false, u64::from(set))
}

// Stores the numbers of a P or V line in the first twelve places.
fn store_row(row: Row, out: &mut [i64])
    requires { bare_width ≤ length out.old }
    ensures { out.new ≡ over (row_numbers row) out.old }
{
    let numbers = [
        stored_signed(row.x),
        stored_signed(row.y),
        stored_signed(row.z),
        stored_signed(row.clock),
        stored_row::stored_number(false, row.x_exponent),
        stored_row::stored_number(false, row.y_exponent),
        stored_row::stored_number(false, row.z_exponent),
        stored_row::stored_number(false, row.clock_exponent),
        stored_mark(row.event),
        stored_mark(row.predicted),
        stored_mark(row.maneuver),
        stored_mark(row.orbit_predicted),
    ];
    out[..BARE_WIDTH].copy_from_slice(&numbers);
}

// Stores the numbers of an EP or EV line in the first eleven places.
fn store_note(note: Note, out: &mut [i64])
    requires { note_width ≤ length out.old }
    ensures { out.new ≡ over (note_numbers note) out.old }
{
    let numbers = [
        stored_mark(true),
        stored_row::stored_number(false, note.x_deviation),
        stored_row::stored_number(false, note.y_deviation),
        stored_row::stored_number(false, note.z_deviation),
        stored_row::stored_number(false, note.clock_deviation),
        stored_signed(note.xy),
        stored_signed(note.xz),
        stored_signed(note.xc),
        stored_signed(note.yz),
        stored_signed(note.yc),
        stored_signed(note.zc),
    ];
    out[..NOTE_WIDTH].copy_from_slice(&numbers);
}

// Stores that no such line stands there: 0, and ten unknown.
fn store_no_note(out: &mut [i64])
    requires { note_width ≤ length out.old }
    ensures { out.new ≡ over no_note out.old }
{
    out[..NOTE_WIDTH].fill(UNNOTED as i64);
    out[0] = 0;
}

// Whether EP or EV stands at a byte: a look at one byte where it does not.
fn begins_note(bytes: &[u8], at: usize) -> bool
    ensures { result ≡ begins_note (drop at bytes.now) }
{
    matches!(bytes.get(at..), Some([b'E', b'P' | b'V', ..]))
}

// Stores what stands directly after a row, where a line may begin at `at`.
fn store_after(bytes: &[u8], at: usize, out: &mut [i64])
    requires { note_width ≤ length out.old }
    ensures { (rules : Rules) → out.new ≡ over (note_after rules (lines_of (drop at bytes.now))) out.old }
{
    if begins_note(bytes, at) {
        let end = lines::line_end(bytes, at);
        if end < bytes.len() {
            store_note(record::notes::note_of(&bytes[at..end]), out);
            return;
        }
    }
    store_no_note(out);
}

// Stores a row and what stands directly after it, where a line may begin at `at`.
pub(crate) fn store_noted(row: Row, bytes: &[u8], at: usize, out: &mut [i64])
    requires { row_width ≤ length out.old }
    ensures { (rules : Rules) → out.new ≡ over (row_numbers row ++ note_after rules (lines_of (drop at bytes.now))) out.old }
{
    store_row(row, out);
    store_after(bytes, at, &mut out[BARE_WIDTH..]);
}
