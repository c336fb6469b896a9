// The crossings between two orders, counted two ways, and the displacement of their links.
// No struct holds the links, the orders and n: a caller fills the arrays and asks once, so that it would be made and
// taken apart at once.
ghost use Rattle.std.specs.Prelude.{◌≡◌, take};
ghost use Rattle.tanglegram.specs.Crossings.{count, end};
ghost use Rattle.tanglegram.specs.Entanglement.{displacement};
ghost use Rattle.tanglegram.specs.Lists.{place};
ghost use Rattle.work_orders.specs.Between.{Between};
ghost use Rattle.work_places.specs.Arrays.{Has};

use crate::ends::far_of;
use tanglegram::Side;

// By seen places.
pub fn crossings_seen(links: &[u16; 512], left: &[u16; 512], right: &[u16; 512], n: usize) -> u32
    requires { Between n links.now left.now right.now }
    ensures { result ≡ count n (take n links.now) (take n left.now) (take n right.now) }
{
    let mut far = [0u16; 512];
    far_of(Side::Left, links, right, n, &mut far);
    work_crossings::count_seen(left, &far, n)
}

// Where the links stand, by left leaf: the places of their left ends and of their right ends.
#[derive(Drop)]
struct Places {
    near: [u16; 512],
    far: [u16; 512],
}

impl Places {
    // Writes both between two orders.
    fn fill(&mut self, links: &[u16; 512], left: &[u16; 512], right: &[u16; 512], n: usize)
        requires { Between n links.now left.now right.now }
        ensures { Has n self.new.near (place (take n left.now))
            × Has n self.new.far (end (take n links.now) (take n right.now)) }
    {
        work_places::places(left, n, &mut self.near);
        far_of(Side::Left, links, right, n, &mut self.far);
    }
}

// Pair by pair.
pub fn crossings_paired(links: &[u16; 512], left: &[u16; 512], right: &[u16; 512], n: usize) -> u32
    requires { Between n links.now left.now right.now }
    ensures { result ≡ count n (take n links.now) (take n left.now) (take n right.now) }
{
    let mut places = Places {
        near: [0; 512],
        far: [0; 512],
    };
    places.fill(links, left, right, n);
    work_crossings::count_pairs(&places.near, &places.far, n)
}

// The displacement D.
pub fn displacement_of(links: &[u16; 512], left: &[u16; 512], right: &[u16; 512], n: usize) -> u32
    requires { Between n links.now left.now right.now }
    ensures { result ≡ displacement n (take n links.now) (take n left.now) (take n right.now) }
{
    let mut places = Places {
        near: [0; 512],
        far: [0; 512],
    };
    places.fill(links, left, right, n);
    work_displacement::displaced(&places.near, &places.far, n)
}
