// Whether the leaves that were noted are each from 1 to n, and none twice.
ghost use Rattle.std.specs.Prelude.{◌≡◌, true, [], ◌∷◌, ◌++◌, ◌-◌, ◌*◌, ◌≤◌, ◌<◌, take};
ghost use Rattle.work_newick_reading.specs.Notes.{last_in};
ghost use Rattle.work_newick_reading.specs.Once.{fresh, MarkedMore};

use crate::notes::{FIRST_GROUP, Notes};
use work_seen_places::Seen;

// Whether an entry is no leaf, or can be one more leaf of 1 to n, which is marked then.
fn mark_leaf(seen: &mut Seen, x: u16, n: u16) -> bool
    requires { n ≤ 512 }
    ensures { MarkedMore seen.old x n result seen.new }
{
    if FIRST_GROUP <= x {
        return true;
    }
    if x == 0 || n < x {
        return false;
    }
    let place = usize::from(x - 1);
    if seen.is_marked(place) {
        return false;
    }
    seen.mark(place);
    true
}

impl Notes {
    // Whether the leaves among the rows over n leaves, and the object that was read last, are each from 1 to n and none
    // stands twice.
    pub fn leaves_once(&self, n: u16) -> bool
        requires { (1 ≤ n) × (n ≤ 512) }
        ensures { result ≡ fresh n [] (take (2 * (n - 1)) self.now ++ (last_in self.now ∷ [])) }
    {
        let mut seen = Seen::new();
        for x in self.entries(n) {
            if !mark_leaf(&mut seen, *x, n) {
                return false;
            }
        }
        mark_leaf(&mut seen, self.last_object(), n)
    }
}
