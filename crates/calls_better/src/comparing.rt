// Better of two: of two orders proposed for a side, the one that crosses less against the other side's present order.
ghost use Rattle.std.specs.Prelude.{true, ◌≡◌, IfOk};
ghost use Rattle.record_fields.specs.Fields.{size_of};
ghost use Rattle.record_fields.specs.Meaning.{table_of};
ghost use Rattle.record_fields.specs.Refused.{told};
ghost use Rattle.record_fields.specs.Told.{told_of};
ghost use Rattle.calls_better.specs.Answers.{compared};
ghost use Rattle.calls_better.specs.Calls.{BetterChecks, Betters, Compares, count_with};
ghost use Rattle.calls_better.specs.Refusals.{better_refusal};
ghost use Rattle.record_arrays.specs.Sides.{RecordOver, side_of};
ghost use Rattle.record_orders.specs.Proposed.{is_order};

use crate::answers::{Better, Which};
use record_arrays::side_order;
use record_fields::copying::copied;
use record_fields::fields::links_at;
use record_fields::refusal::Refusal;
use record_orders::is_order;
use tanglegram::Side;
use work_orders::crossings_seen;

// The count of an accepted record with a side's order replaced by the first n entries of a lent one.
fn count_with(s: &[u8], n: u16, side: Side, xs: &[u16]) -> u32
    requires record_over { RecordOver s.now n }
    requires proposed { is_order n ((table_of s.now).tree side) xs.now ≡ true }
    ensures { result ≡ count_with s.now side xs.now }
{
    let k = n as usize;
    let mut order = [0u16; 512];
    copied(&xs[..k], &mut order);
    let mut other = [0u16; 512];
    side_order(s, n, side.other(), &mut other);
    let mut links = [0u16; 512];
    record_fields::fill_links(s, links_at(n), n, &mut links);
    match side {
        Side::Left => crossings_seen(&links, &order, &other, k),
        Side::Right => crossings_seen(&links, &other, &order, k),
    }
}

// The side and n, where both orders are orders of that side of an accepted record; or the refusal of comparing them.
fn comparing(s: &[u8], side: u16, first: &[u16], second: &[u16]) -> Result<(Side, u16), Refusal>
    ensures tells { told result ≡ told_of s.now (better_refusal s.now side first.now second.now) }
    ensures says { IfOk result (λ r. (better_refusal s.now side first.now second.now ≡ 0) ×
        (side_of side ≡ r.0) × (r.1 ≡ size_of s.now)) }
{
    let side = Side::try_from(side)?;
    let header = record::read(s)?;
    let n = header.n;
    if !is_order(s, n, side, first) {
        return Err(Refusal::Order);
    }
    if !is_order(s, n, side, second) {
        return Err(Refusal::Order);
    }
    Ok((side, n))
}

// Why better of two answers an empty part: 13, then 1 to 10, then 16 for the first order and for the second.
pub fn better_check(s: &[u8], side: u16, first: &[u16], second: &[u16]) -> Result<(), Refusal>
    ensures { BetterChecks s.now side first.now second.now (told result) }
{
    comparing(s, side, first, second)?;
    Ok(())
}

// Which of two lent orders crosses less, the first one on a tie, and how many of its entries count; or the refusal.
pub fn compare(s: &[u8], side: u16, first: &[u16], second: &[u16]) -> Result<Better, Refusal>
    ensures { Compares s.now side first.now second.now (compared result) }
{
    let (side, n) = comparing(s, side, first, second)?;
    let a = count_with(s, n, side, first);
    let b = count_with(s, n, side, second);
    let which = if b < a { Which::Second } else { Which::First };
    Ok(Better { which, length: n })
}

// The first n entries of the lent order that crosses less, of the first one on a tie; an empty part of the first where
// anything is refused.
pub fn better<'a>(s: &[u8], side: u16, first: &'a [u16], second: &'a [u16]) -> &'a [u16]
    ensures { Betters s.now side first.now second.now
        first.entry.ref_ptr second.entry.ref_ptr result.now result.ref_ptr }
{
    match compare(s, side, first, second) {
        Ok(better) => {
            let k = better.length as usize;
            match better.which {
                Which::First => &first[..k],
                Which::Second => &second[..k],
            }
        }
        Err(_) => &first[..0],
    }
}
