// Compatible orders: the layout read off an order, and whether an order is compatible with a tree.
ghost use Rattle.std.specs.Prelude.{◌≡◌, ◌+◌, length};
ghost use Rattle.tanglegram.specs.Order.{reading};
ghost use Rattle.work_trees.specs.Rows.{GoodRows, size, tree_of};
ghost use Rattle.work_matching.specs.Match.{order_in, Matches};

use work_trees::{layout_order, note_places};

// Writes the layout read off the first n entries of xs: a row is turned if lower's uppermost leaf stands before
// upper's.
pub fn read_layout(rows: &[u16; 1023], xs: &[u16; 512], lay: &mut [u8])
    requires good_rows { GoodRows rows.now }
    requires xs_len { length xs.now ≡ 512 }
    requires lay_len { length lay.old + 1 ≡ size rows.now }
    ensures { lay.new
        ≡ reading (order_in rows.now xs.now) (tree_of rows.now) lay.old }
{
    let n = rows[1022];
    let mut at = [n; 1024];
    note_places(xs, n, &mut at);
    for (i, x) in lay.iter_mut().enumerate() {
        let upper = at[usize::from(rows[2 * i])];
        let lower = at[usize::from(rows[2 * i + 1])];
        *x = u8::from(lower < upper);
        at[usize::from(n) + i + 1] = upper;
    }
}

// Writes the layout read off the first n entries of xs, and answers whether they are a compatible order, which is so
// exactly if that layout gives them.
pub fn match_layout(rows: &[u16; 1023], xs: &[u16; 512], lay: &mut [u8]) -> bool
    requires good_rows { GoodRows rows.now }
    requires xs_len { length xs.now ≡ 512 }
    requires lay_len { length lay.old + 1 ≡ size rows.now }
    ensures { Matches rows.now xs.now lay.old result lay.new }
{
    let n = usize::from(rows[1022]);
    let mut out = [0u16; 512];
    read_layout(rows, xs, lay);
    layout_order(rows, lay, &mut out);
    out[..n] == xs[..n]
}
