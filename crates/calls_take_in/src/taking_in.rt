// Taking in an order for a side: what is refused, the layout bytes that give it, and what they count. The record is
// only read, so what is held plays no part.
ghost use Rattle.std.specs.Prelude.{◌≡◌, ◌+◌, ◌-◌, length, replicate};
ghost use Rattle.record_fields.specs.Refused.{told};
ghost use Rattle.record_arrays.specs.Sides.{RecordOver};
ghost use Rattle.calls_take_in.specs.Answers.{taken_in};
ghost use Rattle.calls_take_in.specs.Calls.{TakesIn};
ghost use Rattle.calls_take_in.specs.Steps.{OrderTold, Weighed};

use crate::answers::Weight;
use record_arrays::{fill_layout, layout_at};
use record_fields::copying::bytes_in;
use record_fields::refusal::Refusal;
use record_orders::read_order;
use record_turns::free_with;
use tanglegram::Side;
use work_freeing::Sums;
use work_matching::keep_pins;

// Writes the layout bytes that give an order of a side of an accepted record to `lay`, zeros before; or answers 16 if
// xs is no order of that side, 23 if it goes against a pin.
fn lay_order(s: &[u8], n: u16, side: Side, xs: &[u16], lay: &mut [u8]) -> Result<(), Refusal>
    requires { RecordOver s.now n × (lay.old ≡ replicate (n - 1) 0) }
    ensures { OrderTold s.now n side xs.now (told result) lay.new }
{
    if !read_order(s, n, side, xs, lay) {
        return Err(Refusal::Order);
    }
    let from = layout_at(n, side);
    let to = from + (n as usize - 1);
    if !keep_pins(&s[from..to], lay) {
        return Err(Refusal::AgainstPin);
    }
    Ok(())
}

// The count of an accepted record with other layout bytes on a side, and the count that freeing that side would leave;
// the other side stands as it is. The bytes become those that freeing leaves.
fn weigh(s: &[u8], n: u16, side: Side, lay: &mut [u8]) -> Sums
    requires { RecordOver s.now n × (length lay.old + 1 ≡ n) }
    ensures { Weighed s.now side lay.old result.before result.after }
{
    let mut rest = [0u8; 512];
    let rest = &mut rest[..n as usize - 1];
    fill_layout(s, n, side.other(), rest);
    match side {
        Side::Left => free_with(s, n, side, lay, rest),
        Side::Right => free_with(s, n, side, rest, lay),
    }
}

// Takes in the first n entries of xs as the order of a side of any bytes: the layout bytes that give it, pins kept,
// into a buffer's first places; the count with them, and whether it is the least for that side. Or the refusal, and
// the buffer as it was.
pub fn take_in(s: &[u8], side: u16, xs: &[u16], out: &mut [u8]) -> Result<Weight, Refusal>
    ensures { TakesIn s.now side xs.now out.old (taken_in result) out.new }
{
    let side = Side::try_from(side)?;
    let header = record::read(s)?;
    let n = header.n;
    let mut lay = [0u8; 512];
    let lay = &mut lay[..n as usize - 1];
    lay_order(s, n, side, xs, lay)?;
    if out.len() < lay.len() {
        return Err(Refusal::Room);
    }
    bytes_in(lay, out, 0);
    let turn = weigh(s, n, side, lay);
    Ok(Weight {
        count: turn.before,
        least: turn.before <= turn.after,
    })
}
