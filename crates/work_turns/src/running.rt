// A run: turns alternate, the left first, until one other than turn 1 gains nothing or the allowance is used up.
ghost use Rattle.std.specs.Prelude.{◌≡◌, ◌≤◌};
ghost use Rattle.tanglegram.specs.Lists.{bit};
ghost use Rattle.tanglegram.specs.Table.{crossings};
ghost use Rattle.tanglegram.specs.declared.side.Side.TheVariants.{Right as right_side};
ghost use Rattle.work_trees.specs.Exchange.{given_tree};
ghost use Rattle.work_trees.specs.Rows.{size};
ghost use Rattle.work_linked_trees.specs.Memory.{InMemory, layouts_from, table_from};
ghost use Rattle.work_linked_trees.specs.Sides.{AtHand, layouts_in, Linked, SameArrays, tree_in};
ghost use Rattle.work_turns.specs.Taken.{GoneOn, RunTaken};

use tanglegram::Side;
use work_freeing::Sums;
use work_linked_trees::{OneSide, first_turn, take_turn};

// What a run's turns come to: the first and the last count, the turns taken, and whether it settled.
#[derive(Drop)]
pub struct Taken {
    pub first: u32,
    pub last: u32,
    pub turns: u32,
    pub settled: bool,
}

// Takes the turns after the first, which came to `turn`, the right next.
fn go_on(
    left: &mut OneSide,
    right: &mut OneSide,
    links: &[u16; 512],
    turn: Sums,
    allowance: u32,
) -> Taken
    requires in_memory { Linked left.old right.old links.now }
    requires order_at_hand { AtHand right_side left.old right.old }
    requires count_value { (turn.after ≡ crossings
        (table_from (size left.old.rows.now) links.now left.old.rows.now left.old.lay.now right.old.rows.now right.old.lay.now)
        (layouts_in left.old right.old))
        × (1 ≤ allowance) }
    ensures gone_on { GoneOn (tree_in left.old) (tree_in right.old)
        (size left.old.rows.now) links.now (layouts_in left.old right.old)
        allowance result.last result.turns (bit result.settled)
        left.new.rows.now left.new.lay.now right.new.rows.now right.new.lay.now }
    ensures first { result.first ≡ turn.before }
    ensures left_arrays { SameArrays left.old left.new }
    ensures right_arrays { SameArrays right.old right.new }
{
    let first = turn.before;
    let mut last = turn.after;
    let mut side = Side::Right;
    for taken in 1..allowance {
        let turn = take_turn(left, right, links, side);
        last = turn.after;
        if turn.before <= last {
            return Taken {
                first,
                last,
                turns: taken + 1,
                settled: true,
            };
        }
        side = side.other();
    }
    Taken {
        first,
        last,
        turns: allowance,
        settled: false,
    }
}

// Takes turns under an allowance, the left first, in the rows and in the layouts.
pub fn take_turns(
    left: &mut [u16; 1023],
    right: &mut [u16; 1023],
    links: &[u16; 512],
    leftlay: &mut [u8],
    rightlay: &mut [u8],
    allowance: u32,
) -> Taken
    requires in_memory { InMemory (given_tree left.old leftlay.old) (given_tree right.old rightlay.old) (size left.old)
        links.now left.old leftlay.old right.old rightlay.old }
    requires le_allowance { 1 ≤ allowance }
    ensures { RunTaken (given_tree left.old leftlay.old)
        (given_tree right.old rightlay.old) (size left.old) links.now
        (layouts_from leftlay.old rightlay.old) allowance
        result.first result.last result.turns (bit result.settled)
        left.new leftlay.new right.new rightlay.new }
{
    let mut leftmany = [0; 512];
    let mut leftorder = [0; 512];
    let mut left = OneSide::counted(left, leftlay, &mut leftmany, &mut leftorder);
    let mut rightmany = [0; 512];
    let mut rightorder = [0; 512];
    let mut right = OneSide::counted(right, rightlay, &mut rightmany, &mut rightorder);
    let turn = first_turn(&mut left, &mut right, links, Side::Left);
    go_on(&mut left, &mut right, links, turn, allowance)
}
