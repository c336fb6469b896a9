// Where the links of one side's leaves end in the other side's order, by leaf.
ghost use Rattle.std.specs.Prelude.{◌≤◌, take};
ghost use Rattle.work_orders.specs.Ends.{far_end};
ghost use Rattle.work_places.specs.Arrays.{Has, OneToN};

use tanglegram::Side;

// Writes for each leaf of a side where its link ends in an order of the other side.
pub fn far_of(side: Side, links: &[u16; 512], order: &[u16; 512], n: usize, far: &mut [u16; 512])
    requires { (n ≤ 512) × OneToN n links.now × OneToN n order.now }
    ensures { Has n far.new (far_end side (take n links.now) (take n order.now)) }
{
    let mut places = [0u16; 512];
    work_places::places(order, n, &mut places);
    match side {
        Side::Left => work_places::far_ends(links, &places, n, far),
        Side::Right => work_places::near_ends(links, &places, n, far),
    }
}
