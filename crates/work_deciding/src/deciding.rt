// One row of a side that is freed: its own crossings by the far places of its leaves' links, and whether it is turned
// over.
ghost use Rattle.std.specs.Prelude.{◌≡◌, ◌+◌, ◌*◌, ◌≤◌, length};
ghost use Rattle.work_deciding.specs.Row.{as_it_stands, Decides, the_other, turns_over};

use work_crossings::count_across;
use work_trees::{flipped, may_change};

// A row's own crossings as it stands. The far places of the leaves under its first entry stand in `seen` from index
// `at` on, and those under its second entry right after them. Each pair of one and the other crosses in just one of the
// two arrangements, so that counting either is enough: the one whose outer loop goes over the shorter run.
pub fn own_crossings(seen: &[u16; 512], at: usize, first: usize, second: usize) -> u32
    requires second_bound { at + first + second ≤ 512 }
    requires second_value { as_it_stands seen.now at first second + the_other seen.now at first second ≡ first * second }
    ensures { result ≡ as_it_stands seen.now at first second }
{
    let next = at + first;
    if second <= first {
        return count_across(seen, at, first, next, second);
    }
    // No `try_from`: it would add a branch that is never taken.
    let pairs = (first * second) as u32;
    pairs - count_across(seen, next, second, at, first)
}

// Whether freeing turns a row over, from its byte and its own crossings as it stands and turned over.
fn turns_over(x: u8, count: u32, other: u32) -> bool
    ensures { result ≡ turns_over x count other }
{
    may_change(x) && other < count
}

// Decides one row: turns it over, in the row array and in the layout, or keeps it. Answers its own crossings then.
pub fn decide(rows: &mut [u16; 1023], lay: &mut [u8], row: usize, count: u32, other: u32) -> u32
    requires { (1 ≤ row) × (row ≤ length lay.old) × (row ≤ 511) }
    ensures { Decides rows.old lay.old row count other result rows.new lay.new }
{
    let x = lay[row - 1];
    if !turns_over(x, count, other) {
        return count;
    }
    lay[row - 1] = flipped(x);
    rows.swap(2 * row - 2, 2 * row - 1);
    other
}
