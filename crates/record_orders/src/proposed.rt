// An order proposed for a side of an accepted record over n leaves: copied to an array, and matched with the side's
// rows as they are given. What is turned over in the record, pinned or held, plays no part.
ghost use Rattle.std.specs.Prelude.{◌≡◌, ◌+◌, length};
ghost use Rattle.record_fields.specs.Meaning.{table_of};
ghost use Rattle.record_arrays.specs.Sides.{RecordOver};
ghost use Rattle.record_orders.specs.Proposed.{is_order, OrderRead};

use record_arrays::{SaysSide, rows_at};
use record_fields::copying::copied;

// Whether the first n entries of a lent order are an order of a side. If it has as many, `lay` becomes the layout that
// they show, no row pinned.
pub fn read_order<S: SaysSide>(s: &[u8], n: u16, side: S, xs: &[u16], lay: &mut [u8]) -> bool
    requires { RecordOver s.now n × (length lay.old + 1 ≡ n) }
    ensures { OrderRead s.now n (S.said side) xs.now lay.old result lay.new }
{
    let k = n as usize;
    if xs.len() < k {
        return false;
    }
    let mut order = [0u16; 512];
    copied(&xs[..k], &mut order);
    let mut rows = [0u16; 1023];
    record_fields::fill_rows(s, rows_at(n, side), n, &mut rows);
    work_matching::match_layout(&rows, &order, lay)
}

// Whether the first n entries of a lent order are an order of a side.
pub fn is_order<S: SaysSide>(s: &[u8], n: u16, side: S, xs: &[u16]) -> bool
    requires { RecordOver s.now n }
    ensures { result ≡ is_order n ((table_of s.now).tree (S.said side)) xs.now }
{
    let m = n as usize - 1;
    let mut lay = [0u8; 512];
    read_order(s, n, side, xs, &mut lay[..m])
}
