// What an accepted record over n leaves shows in numbers: its crossings, counted two ways, and its displacement. The
// record is taken apart into two orders and the links, and these are counted.
ghost use Rattle.std.specs.Prelude.{◌≡◌};
ghost use Rattle.record_fields.specs.Fields.{parts};
ghost use Rattle.record_arrays.specs.Apart.{OrdersTaken};
ghost use Rattle.record_arrays.specs.Shown.{shown_count, shown_order};
ghost use Rattle.record_arrays.specs.Sides.{RecordOver};
ghost use Rattle.tanglegram.specs.Entanglement.{displacement};
ghost use Rattle.tanglegram.specs.declared.side.Side.TheVariants.{Left as left, Right as right};
ghost use Rattle.work_orders.specs.Between.{Between};

use record_arrays::take_orders;
use work_orders::{crossings_paired, crossings_seen, displacement_of};

// What a rule finds of the record's links, its left order and its right order.
fn found<F: FnOnce(&[u16; 512], &[u16; 512], &[u16; 512], usize) -> u32>(
    s: &[u8],
    n: u16,
    rule: F,
) -> u32
    requires record_over { RecordOver s.now n }
    requires takes { (links left right : _) → Between n links.now left.now right.now → F.pre rule links left right n }
    ensures { (links left right : _) × OrdersTaken s.now n left.now right.now links.now × F.post rule links left right n result }
{
    let mut left = [0u16; 512];
    let mut right = [0u16; 512];
    let mut links = [0u16; 512];
    take_orders(s, n, &mut left, &mut right, &mut links);
    rule(&links, &left, &right, n as usize)
}

// By seen places.
pub fn record_seen(s: &[u8], n: u16) -> u32
    requires { RecordOver s.now n }
    ensures { result ≡ shown_count s.now }
{
    found(
        s,
        n,
        |links, left, right, n| crossings_seen(links, left, right, n),
    )
}

// Pair by pair.
pub fn record_paired(s: &[u8], n: u16) -> u32
    requires { RecordOver s.now n }
    ensures { result ≡ shown_count s.now }
{
    found(
        s,
        n,
        |links, left, right, n| crossings_paired(links, left, right, n),
    )
}

// The displacement D.
pub fn record_displaced(s: &[u8], n: u16) -> u32
    requires { RecordOver s.now n }
    ensures { result ≡ displacement n (parts s.now).links (shown_order s.now left)
        (shown_order s.now right) }
{
    found(
        s,
        n,
        |links, left, right, n| displacement_of(links, left, right, n),
    )
}
