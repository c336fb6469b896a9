// Freeing a side and taking turns in an accepted record over n leaves: it is taken apart into arrays, the work is done
// there (the crate `work_turns`), and then, once, the layouts go back. Until then the record is as it was. Freeing can
// also be asked of other layouts than the record's; then nothing goes back.
ghost use Rattle.std.specs.Prelude.{◌≡◌, ◌+◌, ◌≤◌, length};
ghost use Rattle.tanglegram.specs.Lists.{bit};
ghost use Rattle.record_arrays.specs.Sides.{RecordOver};
ghost use Rattle.work_linked_trees.specs.Memory.{layouts_from};
ghost use Rattle.record_turns.specs.Worked.{LayoutsFreed, LayoutsRan, RecordFreed, RecordRan};

use record_arrays::{put_back, take_layouts, take_trees};
use tanglegram::Side;
use work_freeing::Sums;
use work_turns::Taken;

// Frees a side of the record as it would stand with the layouts lent, and makes them what freeing leaves. Answers the
// counts before and after. The record is only read.
pub fn free_with(s: &[u8], n: u16, side: Side, leftlay: &mut [u8], rightlay: &mut [u8]) -> Sums
    requires record_over { RecordOver s.now n }
    requires leftlay_len { (length leftlay.old + 1 ≡ n) × (length rightlay.old + 1 ≡ n) }
    ensures { LayoutsFreed s.now side (layouts_from leftlay.old rightlay.old)
        result.before result.after (layouts_from leftlay.new rightlay.new) }
{
    let mut left = [0u16; 1023];
    let mut right = [0u16; 1023];
    let mut links = [0u16; 512];
    take_trees(s, n, leftlay, rightlay, &mut left, &mut right, &mut links);
    work_linked_trees::free_side(&mut left, &mut right, &links, leftlay, rightlay, side)
}

// Frees a side of the record, its layouts in the arrays lent.
fn free_apart(s: &mut [u8], n: u16, side: Side, leftlay: &mut [u8], rightlay: &mut [u8]) -> Sums
    requires record_over { RecordOver s.old n }
    requires leftlay_len { (length leftlay.old + 1 ≡ n) × (length rightlay.old + 1 ≡ n) }
    ensures { RecordFreed s.old side result.before result.after s.new }
{
    take_layouts(s, n, leftlay, rightlay);
    let turn = free_with(s, n, side, leftlay, rightlay);
    put_back(s, n, leftlay, rightlay);
    turn
}

// Frees a side of the record: its layout bytes, and no other byte. Answers the counts before and after.
pub fn free_record(s: &mut [u8], n: u16, side: Side) -> Sums
    requires { RecordOver s.old n }
    ensures { RecordFreed s.old side result.before result.after s.new }
{
    let m = n as usize - 1;
    let mut leftlay = [0u8; 512];
    let mut rightlay = [0u8; 512];
    free_apart(s, n, side, &mut leftlay[..m], &mut rightlay[..m])
}

// Takes turns in the record as it would stand with the layouts lent, and makes them what the run leaves. The record is
// only read.
fn run_with(s: &[u8], n: u16, allowance: u32, leftlay: &mut [u8], rightlay: &mut [u8]) -> Taken
    requires record_over { RecordOver s.now n × (1 ≤ allowance) }
    requires leftlay_len { (length leftlay.old + 1 ≡ n) × (length rightlay.old + 1 ≡ n) }
    ensures { LayoutsRan s.now (layouts_from leftlay.old rightlay.old) allowance
        result.first result.last result.turns (bit result.settled) (layouts_from leftlay.new rightlay.new) }
{
    let mut left = [0u16; 1023];
    let mut right = [0u16; 1023];
    let mut links = [0u16; 512];
    take_trees(s, n, leftlay, rightlay, &mut left, &mut right, &mut links);
    work_turns::take_turns(&mut left, &mut right, &links, leftlay, rightlay, allowance)
}

// Takes turns in the record, its layouts in the arrays lent.
fn run_apart(s: &mut [u8], n: u16, allowance: u32, leftlay: &mut [u8], rightlay: &mut [u8]) -> Taken
    requires record_over { RecordOver s.old n × (1 ≤ allowance) }
    requires leftlay_len { (length leftlay.old + 1 ≡ n) × (length rightlay.old + 1 ≡ n) }
    ensures { RecordRan s.old allowance result.first result.last result.turns (bit result.settled) s.new }
{
    take_layouts(s, n, leftlay, rightlay);
    let taken = run_with(s, n, allowance, leftlay, rightlay);
    put_back(s, n, leftlay, rightlay);
    taken
}

// Takes turns in the record, the left first: its layout bytes, and no other byte. Answers what the run comes to.
pub fn run_record(s: &mut [u8], n: u16, allowance: u32) -> Taken
    requires { RecordOver s.old n × (1 ≤ allowance) }
    ensures { RecordRan s.old allowance result.first result.last result.turns (bit result.settled) s.new }
{
    let m = n as usize - 1;
    let mut leftlay = [0u8; 512];
    let mut rightlay = [0u8; 512];
    run_apart(s, n, allowance, &mut leftlay[..m], &mut rightlay[..m])
}
