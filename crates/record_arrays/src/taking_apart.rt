// An accepted record over n leaves taken apart into the arrays that the work goes over: trees as row arrays with their
// layouts applied, layouts, links and orders.
ghost use Rattle.std.specs.Prelude.{◌++◌, ◌≡◌, ◌+◌, drop, length};
ghost use Rattle.record_fields.specs.Meaning.{layouts_of, table_of};
ghost use Rattle.record_arrays.specs.Apart.{OrdersTaken, TreesTaken};
ghost use Rattle.record_arrays.specs.Sides.{RecordOver};
ghost use Rattle.tanglegram.specs.Table.{layout, order_of};
ghost use Rattle.work_linked_trees.specs.Memory.{layouts_from};
ghost use Rattle.work_trees.specs.Exchange.{LaidOut};

use crate::places::{layout_at, rows_at};
use crate::sides::SaysSide;
use record_fields::copying::bytes_in;
use record_fields::fields::links_at;
use tanglegram::Side;

// Fills a row array with a side's rows, the layout applied that is lent.
fn lay_out<S: SaysSide>(s: &[u8], n: u16, side: S, lay: &[u8], rows: &mut [u16; 1023])
    requires { RecordOver s.now n × (length lay.now + 1 ≡ n) × (length rows.old ≡ 1023) }
    ensures { LaidOut ((table_of s.now).tree (S.said side)) n lay.now rows.new }
{
    record_fields::fill_rows(s, rows_at(n, side), n, rows);
    work_trees::exchange(rows, lay);
}

// Fills a row array with a side's rows, its own layout applied.
pub fn fill_side<S: SaysSide>(s: &[u8], n: u16, side: S, rows: &mut [u16; 1023])
    requires { RecordOver s.now n × (length rows.old ≡ 1023) }
    ensures { LaidOut ((table_of s.now).tree (S.said side)) n (layout (layouts_of s.now) (S.said side))
        rows.new }
{
    let from = layout_at(n, side);
    let to = from + (n as usize - 1);
    lay_out(s, n, side, &s[from..to], rows);
}

// Copies a side's layout.
pub fn fill_layout<S: SaysSide>(s: &[u8], n: u16, side: S, lay: &mut [u8])
    requires { RecordOver s.now n × (length lay.old + 1 ≡ n) }
    ensures { lay.new ≡ layout (layouts_of s.now) (S.said side) }
{
    let from = layout_at(n, side);
    let to = from + (n as usize - 1);
    bytes_in(&s[from..to], lay, 0);
}

// Writes a side's present order to an array's first places.
pub fn side_order<S: SaysSide>(s: &[u8], n: u16, side: S, out: &mut [u16; 512])
    requires { RecordOver s.now n × (length out.old ≡ 512) }
    ensures { out.new
        ≡ order_of (table_of s.now) (layouts_of s.now) (S.said side) ++ drop n out.old }
{
    let mut rows = [0u16; 1023];
    fill_side(s, n, side, &mut rows);
    let mut many = [0u16; 512];
    work_trees::count_leaves(&rows, &mut many);
    work_trees::leaf_order(&rows, &many, out);
}

// Writes both sides' present orders and the links to the arrays' first places.
pub fn take_orders(
    s: &[u8],
    n: u16,
    left: &mut [u16; 512],
    right: &mut [u16; 512],
    links: &mut [u16; 512],
)
    requires record_over { RecordOver s.now n }
    requires left_len { (length left.old ≡ 512) × (length right.old ≡ 512) × (length links.old ≡ 512) }
    ensures { OrdersTaken s.now n left.new right.new links.new }
{
    side_order(s, n, Side::Left, left);
    side_order(s, n, Side::Right, right);
    record_fields::fill_links(s, links_at(n), n, links);
}

// Copies both layouts.
pub fn take_layouts(s: &[u8], n: u16, leftlay: &mut [u8], rightlay: &mut [u8])
    requires { RecordOver s.now n × (length leftlay.old + 1 ≡ n) × (length rightlay.old + 1 ≡ n) }
    ensures { layouts_from leftlay.new rightlay.new ≡ layouts_of s.now }
{
    fill_layout(s, n, Side::Left, leftlay);
    fill_layout(s, n, Side::Right, rightlay);
}

// Writes both trees, the layouts applied that are lent, and the links.
pub fn take_trees(
    s: &[u8],
    n: u16,
    leftlay: &[u8],
    rightlay: &[u8],
    left: &mut [u16; 1023],
    right: &mut [u16; 1023],
    links: &mut [u16; 512],
)
    requires record_over { RecordOver s.now n × (length leftlay.now + 1 ≡ n) × (length rightlay.now + 1 ≡ n) }
    requires left_len { (length left.old ≡ 1023) × (length right.old ≡ 1023) × (length links.old ≡ 512) }
    ensures { TreesTaken s.now n links.new left.new leftlay.now right.new
        rightlay.now }
{
    lay_out(s, n, Side::Left, leftlay, left);
    lay_out(s, n, Side::Right, rightlay, right);
    record_fields::fill_links(s, links_at(n), n, links);
}
