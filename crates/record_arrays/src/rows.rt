// One row of an accepted record over n leaves: whether there is such a row, and its layout byte, read and put back. No
// other byte is written.
ghost use Rattle.std.specs.Prelude.{◌≡◌, not, ◌<◌, ◌≤◌};
ghost use Rattle.record_fields.specs.Meaning.{layouts_of, relaid};
ghost use Rattle.record_arrays.specs.Rows.{no_row, row_byte, with_byte};
ghost use Rattle.record_arrays.specs.Sides.{RecordOver};

use crate::places::layout_at;
use crate::sides::SaysSide;

// Whether a tree over n leaves has that row.
pub fn is_row(n: u16, row: u16) -> bool
    ensures { result ≡ not (no_row n row) }
{
    row != 0 && row < n
}

// The layout byte of a side's row.
pub fn row_byte<S: SaysSide>(s: &[u8], n: u16, side: S, row: u16) -> u8
    requires record_over { RecordOver s.now n }
    requires le_row { (1 ≤ row) × (row < n) }
    ensures { result ≡ row_byte s.now (S.said side) row }
{
    s[layout_at(n, side) + (row as usize - 1)]
}

// Puts x for the layout byte of a side's row.
pub fn put_row_byte<S: SaysSide>(s: &mut [u8], n: u16, side: S, row: u16, x: u8)
    requires record_over { RecordOver s.old n }
    requires le_row { (1 ≤ row) × (row < n) }
    ensures { s.new ≡ relaid s.old (with_byte (S.said side) row x (layouts_of s.old)) }
{
    s[layout_at(n, side) + (row as usize - 1)] = x;
}
