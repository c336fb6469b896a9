// Freeing a side while the other stands. The freed side needs its own order, in which it stood before, and the other
// side's order, in which its links end; the latter is walked anew, since the other side may have been freed before.
ghost use Rattle.std.specs.Prelude.{◌≡◌, ◌+◌, length, take};
ghost use Rattle.tanglegram.specs.Run.{other};
ghost use Rattle.tanglegram.specs.Tree.{leaves};
ghost use Rattle.work_trees.specs.Exchange.{given_tree};
ghost use Rattle.work_trees.specs.Rows.{GoodRows, LeafCounts, size, tree_of};
ghost use Rattle.work_places.specs.Arrays.{OneToN};
ghost use Rattle.work_freeing.specs.Rows.{InOrder, RowsFreed};
ghost use Rattle.work_linked_trees.specs.Memory.{InMemory, layouts_from, SideFreed};
ghost use Rattle.work_linked_trees.specs.Sides.{AtHand, Freed, Linked, SameArrays, seen_by, Stands};

use crate::sides::OneSide;
use tanglegram::Side;
use work_freeing::{Sums, free_rows};
use work_orders::far_of;

// Frees one side, by its own order and the other side's, which is written.
fn free_one(side: Side, freed: &mut OneSide, standing: &mut OneSide, links: &[u16; 512]) -> Sums
    requires linked { (size standing.old.rows.now ≡ size freed.old.rows.now) × OneToN (size freed.old.rows.now) links.now }
    requires in_order { InOrder freed.old.rows.now freed.old.order.now }
    ensures rows_freed { RowsFreed
        (seen_by side (take (size freed.old.rows.now) links.now) (leaves (tree_of standing.old.rows.now)))
        freed.old.rows.now freed.old.lay.now result.before result.after freed.new.rows.now freed.new.lay.now }
    ensures in_order_2 { InOrder standing.old.rows.now standing.new.order.now }
    ensures kept { SameArrays freed.old freed.new × Stands standing.old standing.new }
{
    let n = usize::from(freed.rows[1022]);
    standing.walk();
    let mut far = [0u16; 512];
    far_of(side, links, standing.order, n, &mut far);
    free_rows(freed.rows, freed.many, freed.order, &far, freed.lay)
}

// Takes a turn: frees a side whose order is at hand. The other side's order is at hand afterwards.
pub fn take_turn(left: &mut OneSide, right: &mut OneSide, links: &[u16; 512], side: Side) -> Sums
    requires in_memory { Linked left.old right.old links.now }
    requires order_at_hand { AtHand side left.old right.old }
    ensures side_freed { Freed left.old right.old links.now side result.before result.after left.new right.new }
    ensures order_at_hand_2 { AtHand (other side) left.new right.new }
    ensures left_arrays { SameArrays left.old left.new }
    ensures right_arrays { SameArrays right.old right.new }
{
    match side {
        Side::Left => free_one(side, left, right, links),
        Side::Right => free_one(side, right, left, links),
    }
}

// Takes a first turn: frees a side, its own order walked before. The other side's order is at hand afterwards.
pub fn first_turn(left: &mut OneSide, right: &mut OneSide, links: &[u16; 512], side: Side) -> Sums
    requires in_memory { Linked left.old right.old links.now }
    ensures side_freed { Freed left.old right.old links.now side result.before result.after left.new right.new }
    ensures order_at_hand { AtHand (other side) left.new right.new }
    ensures left_arrays { SameArrays left.old left.new }
    ensures right_arrays { SameArrays right.old right.new }
{
    match side {
        Side::Left => {
            left.walk();
            take_turn(left, right, links, side)
        }
        Side::Right => {
            right.walk();
            take_turn(left, right, links, side)
        }
    }
}

// Frees a side, in its rows and in its layout; the other side stands. Answers the counts before and after, which are
// the sums of the side's own crossings.
// It takes arrays and no `OneSide`: a struct with the arrays for counts and orders would be moved by value.
pub fn free_side(
    left: &mut [u16; 1023],
    right: &mut [u16; 1023],
    links: &[u16; 512],
    leftlay: &mut [u8],
    rightlay: &mut [u8],
    side: Side,
) -> Sums
    requires in_memory { InMemory (given_tree left.old leftlay.old) (given_tree right.old rightlay.old) (size left.old)
        links.now left.old leftlay.old right.old rightlay.old }
    ensures { SideFreed (given_tree left.old leftlay.old)
        (given_tree right.old rightlay.old) (size left.old) links.now
        side (layouts_from leftlay.old rightlay.old) result.before result.after
        left.new leftlay.new right.new rightlay.new }
{
    let mut leftmany = [0; 512];
    let mut leftorder = [0; 512];
    let mut left = OneSide::counted(left, leftlay, &mut leftmany, &mut leftorder);
    let mut rightmany = [0; 512];
    let mut rightorder = [0; 512];
    let mut right = OneSide::counted(right, rightlay, &mut rightmany, &mut rightorder);
    first_turn(&mut left, &mut right, links, side)
}
