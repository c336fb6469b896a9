// Freeing a side row by row: a row is turned over exactly if it may change and that makes its own crossings strictly
// fewer. A row's own crossings don't depend on the turnings of other rows, so each is decided by the order in which the
// side stood before.
ghost use Rattle.std.specs.Prelude.{◌≡◌, ◌+◌, length};
ghost use Rattle.tanglegram.specs.Crossings.{inverted};
ghost use Rattle.work_trees.specs.Rows.{GoodRows, LeafCounts, size};
ghost use Rattle.work_places.specs.Arrays.{at};
ghost use Rattle.work_freeing.specs.Rows.{Apart, InOrder, RowsFreed};

use work_deciding::{decide, own_crossings};
use work_places::entries_along;
use work_trees::{leaves_under, note_places};

// Crossings, summed over the rows of a side: as they stand, and after freeing.
#[derive(Drop)]
pub struct Sums {
    pub before: u32,
    pub after: u32,
}

// Frees a side in memory, a row array with the layout applied, its rows' leaf counts and its order: turns each row over
// from its present byte exactly if it may change and that makes its own crossings strictly fewer, by the far places of
// the leaves' links.
// The leaves under an object stand side by side in the order; `from` has the first one's place, for each leaf and for
// each object whose row has been decided. Answers the sums of the rows' own crossings, which are all crossings of the
// side.
pub fn free_rows(
    rows: &mut [u16; 1023],
    many: &[u16; 512],
    order: &[u16; 512],
    far: &[u16; 512],
    lay: &mut [u8],
) -> Sums
    requires good_rows { GoodRows rows.old × (length lay.old + 1 ≡ size rows.old) }
    requires leaf_counts { LeafCounts rows.old many.now × InOrder rows.old order.now × Apart (size rows.old) far.now }
    ensures { RowsFreed (inverted (at far.now)) rows.old lay.old
        result.before result.after rows.new lay.new }
{
    let n = rows[1022];
    let leaves = usize::from(n);
    let mut from = [n; 1024];
    note_places(order, n, &mut from);
    let mut seen = *order;
    entries_along(far, leaves, &mut seen);
    let mut before: u32 = 0;
    let mut after: u32 = 0;
    for row in 1..leaves {
        let a = usize::from(rows[2 * row - 2]);
        let b = usize::from(rows[2 * row - 1]);
        let at = from[a];
        let first = leaves_under(many, leaves, a);
        let second = leaves_under(many, leaves, b);
        let count = own_crossings(
            &seen,
            usize::from(at),
            usize::from(first),
            usize::from(second),
        );
        let other = u32::from(first) * u32::from(second) - count;
        from[leaves + row] = at;
        before += count;
        after += decide(rows, lay, row, count, other);
    }
    Sums { before, after }
}
