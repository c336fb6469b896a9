// Layouts: what a byte says, and a row array with a layout applied.
ghost use Rattle.std.specs.Prelude.{◌≡◌, ◌+◌, ◌≤◌, ◌++◌, length, drop};
ghost use Rattle.tanglegram.specs.Order.{byte_of, flip, may_change, turned, with_pin, order};
ghost use Rattle.work_trees.specs.Rows.{GoodRows, size, tree_of};
ghost use Rattle.work_trees.specs.Exchange.{exchanged};

use crate::leaves::{count_leaves, leaf_order};

// Whether a layout byte turns its row over.
pub fn is_turned(x: u8) -> bool
    ensures { result ≡ turned x }
{
    !matches!(x, 0 | 2)
}

// Whether a row with that byte may be turned over: it is not pinned.
pub fn may_change(x: u8) -> bool
    ensures { result ≡ may_change x }
{
    x < 2
}

// The byte of a row: pinned or not, turned over or as given.
fn byte_of(pin: bool, turn: bool) -> u8
    ensures { result ≡ byte_of pin turn }
{
    2 * u8::from(pin) + u8::from(turn)
}

// The byte that turns over a row whose byte is x, pinned as it was.
pub fn flipped(x: u8) -> u8
    ensures { result ≡ flip x }
{
    byte_of(!may_change(x), !is_turned(x))
}

// The byte that pins a row whose byte is x, or unpins it, turned as it was.
pub fn with_pin(pin: bool, x: u8) -> u8
    ensures { result ≡ with_pin pin x }
{
    byte_of(pin, is_turned(x))
}

// Exchanges the two entries of each row that the layout turns.
pub fn exchange(rows: &mut [u16; 1023], lay: &[u8])
    requires rows_bound { size rows.old ≤ 512 }
    requires lay_len { length lay.now + 1 ≡ size rows.old }
    ensures { rows.new ≡ exchanged rows.old lay.now }
{
    for (i, &x) in lay.iter().enumerate() {
        if is_turned(x) {
            rows.swap(2 * i, 2 * i + 1);
        }
    }
}

// Writes the order that the layout gives into out's first n places, and leaves the others as they are.
pub fn layout_order(rows: &[u16; 1023], lay: &[u8], out: &mut [u16; 512])
    requires good_rows { GoodRows rows.now }
    requires lay_len { length lay.now + 1 ≡ size rows.now }
    requires out_len { length out.old ≡ 512 }
    ensures { out.new
        ≡ order lay.now (tree_of rows.now)
        ++ drop (size rows.now) out.old }
{
    let mut laid = *rows;
    exchange(&mut laid, lay);
    let mut many = [0u16; 512];
    count_leaves(&laid, &mut many);
    leaf_order(&laid, &many, out);
}
