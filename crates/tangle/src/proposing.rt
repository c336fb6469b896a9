// The calls for C on proposed orders: better of the two, told in numbers since C can't be handed a part, its check,
// and taking one in. None writes to the record; what an order shows is written to its buffer, unless it is refused.
ghost use Rattle.tangle.specs.ForC.{BetterChecksForC, ComparesForC, TakesInForC};

use crate::answers::{TangleBetter, TangleRefusal, TangleTakeIn};
use crate::narrowing::in_16_bits;

// Which of two orders proposed for a side crosses less, the first on a tie, and n; or the refusal.
#[unsafe(no_mangle)]
pub extern "C" fn tangle_better(s: &[u8], side: u32, first: &[u16], second: &[u16]) -> TangleBetter
    ensures { ComparesForC s.now side first.now second.now result }
{
    calls_better::compare(s, in_16_bits(side), first, second).into()
}

// The refusal that better of the two answers, and nothing counted.
#[unsafe(no_mangle)]
pub extern "C" fn tangle_better_check(
    s: &[u8],
    side: u32,
    first: &[u16],
    second: &[u16],
) -> TangleRefusal
    ensures { BetterChecksForC s.now side first.now second.now result }
{
    calls_better::better_check(s, in_16_bits(side), first, second).into()
}

// Takes in an order for a side of any bytes: its layout bytes, into the first places of a buffer, its count, and
// whether that is the least; or the refusal, and the buffer as it was.
#[unsafe(no_mangle)]
pub extern "C" fn tangle_take_in(s: &[u8], side: u32, xs: &[u16], out: &mut [u8]) -> TangleTakeIn
    ensures { TakesInForC s.now side xs.now out.old result out.new }
{
    calls_take_in::take_in(s, in_16_bits(side), xs, out).into()
}
