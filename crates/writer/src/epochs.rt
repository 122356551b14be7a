// The epochs, laid one directly after another from the first byte of `out` on.
ghost use Rattle.std.specs.Prelude.{◌≡◌, true, ◌∷◌, ◌*◌, ◌≤◌, length};
ghost use Rattle.lines.specs.Lent.{flat};
ghost use Rattle.layout.specs.Line.{Lays};
ghost use Rattle.record.specs.Opening.{epoch_line};
ghost use Rattle.record.specs.Rows.{row_width};
ghost use Rattle.canon.specs.Table.{cell_width};
ghost use Rattle.canon.specs.Valid.{is_instant, times_valid};
ghost use Rattle.canon.specs.Canonical.{noted_lines, cell_lines, cells_lines, epoch_shown, epochs_lines};

use crate::shown;
use header::Header;
use record::Epoch;
use record::rows::{BARE_WIDTH, BOTH_WIDTH, ROW_WIDTH};

// A P line, or a V line where `velocity` says so, and the line of its note where there is one.
fn put_noted(velocity: bool, identifier: u64, row: &[i64], out: &mut [u8]) -> usize
    requires row_len { length row.now ≡ row_width }
    requires row_in_bounds { length (flat (noted_lines velocity identifier row.now)) ≤ length out.old }
    ensures { Lays (flat (noted_lines velocity identifier row.now)) out.old result out.new }
{
    let note = &row[BARE_WIDTH..ROW_WIDTH];
    let at = draw::rows::write_row(shown::row_shown(identifier, row), velocity, out);
    if !shown::flag_at(note, 0) {
        return at;
    }
    at + draw::notes::write_note(shown::note_shown(note), velocity, &mut out[at..])
}

// The lines of one satellite in one epoch.
fn put_cell(velocity: bool, identifier: u64, cell: &[i64], out: &mut [u8]) -> usize
    requires cell_len { length cell.now ≡ cell_width velocity }
    requires cell_in_bounds { length (flat (cell_lines velocity identifier cell.now)) ≤ length out.old }
    ensures { Lays (flat (cell_lines velocity identifier cell.now)) out.old result out.new }
{
    let at = put_noted(false, identifier, &cell[0..ROW_WIDTH], out);
    if !velocity {
        return at;
    }
    let motion = &cell[ROW_WIDTH..BOTH_WIDTH];
    at + put_noted(true, identifier, motion, &mut out[at..])
}

// Those of each satellite, in header order.
fn put_cells(velocity: bool, identifiers: &[u64], rows: &[i64], out: &mut [u8]) -> usize
    requires rows_len { length rows.now ≡ length identifiers.now * cell_width velocity }
    requires rows_in_bounds { length (flat (cells_lines velocity identifiers.now rows.now)) ≤ length out.old }
    ensures { Lays (flat (cells_lines velocity identifiers.now rows.now)) out.old result out.new }
{
    let width = canon::cell_width(velocity);
    let mut at = 0;
    let mut rest = rows;
    for identifier in identifiers {
        let (cell, later) = rest.split_at(width);
        at += put_cell(velocity, *identifier, cell, &mut out[at..]);
        rest = later;
    }
    at
}

// One epoch: its line and the rows of its satellites.
fn put_epoch(velocity: bool, identifiers: &[u64], at8: u64, rows: &[i64], out: &mut [u8]) -> usize
    requires at8_value { is_instant at8 ≡ true }
    requires rows_len { length rows.now ≡ length identifiers.now * cell_width velocity }
    requires rows_in_bounds { length (flat (epoch_line (epoch_shown at8) ∷ cells_lines velocity identifiers.now rows.now)) ≤ length out.old }
    ensures { Lays (flat (epoch_line (epoch_shown at8) ∷ cells_lines velocity identifiers.now rows.now)) out.old result out.new }
{
    let epoch = Epoch {
        fault: 0,
        moment: shown::moment_of(at8),
    };
    let at = draw::opening::write_epoch(epoch, out);
    at + put_cells(velocity, identifiers, rows, &mut out[at..])
}

// Every epoch.
pub(crate) fn put_epochs(h: Header, identifiers: &[u64], rows: &[i64], out: &mut [u8]) -> usize
    requires h_value { times_valid h ≡ true }
    requires rows_len { length rows.now ≡ h.epochs * (length identifiers.now * cell_width h.velocity) }
    requires rows_in_bounds { length (flat (epochs_lines h.velocity identifiers.now h.interval8 h.epochs h.start8 rows.now)) ≤ length out.old }
    ensures { Lays (flat (epochs_lines h.velocity identifiers.now h.interval8 h.epochs h.start8 rows.now)) out.old result out.new }
{
    let width = identifiers.len() * canon::cell_width(h.velocity);
    let mut at = 0;
    let mut at8 = h.start8;
    let mut rest = rows;
    for _ in 0..h.epochs {
        let (cells, later) = rest.split_at(width);
        at += put_epoch(h.velocity, identifiers, at8, cells, &mut out[at..]);
        at8 += h.interval8;
        rest = later;
    }
    at
}
