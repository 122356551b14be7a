// EP and EV lines written.
ghost use Rattle.std.specs.Prelude.{◌≡◌};
ghost use Rattle.layout.specs.Inking.{inked, end_from, line_end};
ghost use Rattle.layout.specs.Line.{Lays};
ghost use Rattle.record.specs.Notes.{correlation_symbol, deviation_items, deviation_values, pair_items, pair_values, correlation_items, note_values, note_line};

use crate::columns;
use crate::ended::lay_ended;
use record::Note;
use record::notes::UNNOTED;

// The symbol: EP, or EV where `velocity` says so.
fn symbol_of(velocity: bool) -> [u8; 2]
    ensures { result ≡ correlation_symbol velocity }
{
    [b'E', if velocity { b'V' } else { b'P' }]
}

// The last column up to 26 that is not blank: that of a deviation, or the symbol's.
fn deviations_end(n: Note) -> usize
    ensures { result ≡ end_from 2 deviation_items (deviation_values n) }
{
    let x = columns::known_end(n.x_deviation, UNNOTED, 5, 8, 2);
    let y = columns::known_end(n.y_deviation, UNNOTED, 10, 13, x);
    let z = columns::known_end(n.z_deviation, UNNOTED, 15, 18, y);
    columns::known_end(n.clock_deviation, UNNOTED, 20, 26, z)
}

// The last column of a note's line that is not blank.
fn note_end(n: Note, velocity: bool) -> usize
    ensures { result ≡ line_end (correlation_items velocity) (note_values n) }
{
    let none = deviations_end(n);
    let xy = columns::correlation_end(n.xy, 28, 35, none);
    let xz = columns::correlation_end(n.xz, 37, 44, xy);
    let xc = columns::correlation_end(n.xc, 46, 53, xz);
    let yz = columns::correlation_end(n.yz, 55, 62, xc);
    let yc = columns::correlation_end(n.yc, 64, 71, yz);
    columns::correlation_end(n.zc, 73, 80, yc)
}

// Columns 3 to 26 of a line: the deviations.
fn put_deviations(line: &mut [u8], n: Note)
    ensures { line.new ≡ inked deviation_items (deviation_values n) line.old }
{
    columns::ink_blank(line, 3, 4);
    columns::ink_known(line, n.x_deviation, UNNOTED, 5, 8);
    columns::ink_blank(line, 9, 9);
    columns::ink_known(line, n.y_deviation, UNNOTED, 10, 13);
    columns::ink_blank(line, 14, 14);
    columns::ink_known(line, n.z_deviation, UNNOTED, 15, 18);
    columns::ink_blank(line, 19, 19);
    columns::ink_known(line, n.clock_deviation, UNNOTED, 20, 26);
}

// Columns 27 to 80: the correlations.
fn put_pairs(line: &mut [u8], n: Note)
    ensures { line.new ≡ inked pair_items (pair_values n) line.old }
{
    columns::ink_blank(line, 27, 27);
    columns::ink_correlation(line, n.xy, 28, 35);
    columns::ink_blank(line, 36, 36);
    columns::ink_correlation(line, n.xz, 37, 44);
    columns::ink_blank(line, 45, 45);
    columns::ink_correlation(line, n.xc, 46, 53);
    columns::ink_blank(line, 54, 54);
    columns::ink_correlation(line, n.yz, 55, 62);
    columns::ink_blank(line, 63, 63);
    columns::ink_correlation(line, n.yc, 64, 71);
    columns::ink_blank(line, 72, 72);
    columns::ink_correlation(line, n.zc, 73, 80);
}

// A note in the bytes up to its line's end.
fn put_note(line: &mut [u8], n: Note, velocity: bool)
    ensures { line.new ≡ inked (correlation_items velocity) (note_values n) line.old }
{
    let symbol = symbol_of(velocity);
    columns::ink_fixed(line, &symbol, 1, 2);
    put_deviations(line, n);
    put_pairs(line, n);
}

// An EP line, or an EV line where `velocity` says so, laid at the front of `out`, where there is room, and its length in any case.
pub fn write_note(n: Note, velocity: bool, out: &mut [u8]) -> usize
    ensures lays { Lays (note_line velocity n) out.old result out.new }
{
    let end = note_end(n, velocity);
    lay_ended(end, out, |line| put_note(line, n, velocity))
}
