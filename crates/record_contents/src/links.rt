// Whether links are one-to-one: each number from 1 to n stands among the n links. What was seen of them is marked: place
// q stands for the number q + 1.
ghost use Rattle.std.specs.Prelude.{◌≡◌, ◌≤◌, length};
ghost use Rattle.record_contents.specs.Marks.{marking};
ghost use Rattle.record_fields.specs.Fields.{most_leaves};
ghost use Rattle.record_fields.specs.Refusals.{one_to_one};

use work_seen_places::Seen;
use work_tree_rule::Numbers;

// Marks x, if it is from 1 to n.
fn mark_link(seen: &mut Seen, x: u16, n: usize)
    requires { n ≤ most_leaves }
    ensures { seen.new ≡ marking n seen.old x }
{
    if x == 0 {
        return;
    }
    if n < x as usize {
        return;
    }
    seen.mark(x as usize - 1);
}

// Whether n links are one-to-one on 1 to n.
pub fn one_to_one<T: Numbers>(links: &T, n: u16) -> bool
    requires { (n ≤ most_leaves) × (length (T.list links.now) ≡ n) }
    ensures { result ≡ one_to_one n (T.list links.now) }
{
    let most = n as usize;
    let mut seen = Seen::new();
    for i in 0..most {
        mark_link(&mut seen, links.number(i), most);
    }
    seen.all_before(most)
}
