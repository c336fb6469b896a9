// The calls for C on proposed orders: better of the two, its check, and taking one in.
ghost use Rattle.tangle.specs.ForC.{BetterChecksForC, ComparesForC, TakesInForC};

use tangle::answers::{TangleBetter, TangleRefusal, TangleTakeIn};

// Which of two orders proposed for a side crosses less, the first on a tie, and n; or the refusal.
#[unsafe(no_mangle)]
pub extern "C" fn tangle_better(s: &[u8], side: u32, first: &[u16], second: &[u16]) -> TangleBetter
    ensures { ComparesForC s.now side first.now second.now result }
{
    tangle::tangle_better(s, side, first, second)
}

// The refusal that better of the two answers, and nothing counted.
#[unsafe(no_mangle)]
pub extern "C" fn tangle_better_check(
    s: &[u8],
    side: u32,
    first: &[u16],
    second: &[u16],
) -> TangleRefusal
    ensures { BetterChecksForC s.now side first.now second.now result }
{
    tangle::tangle_better_check(s, side, first, second)
}

// Takes in an order for a side of any bytes: its layout bytes, into the first places of a buffer, its count, and
// whether that is the least; or the refusal, and the buffer as it was.
#[unsafe(no_mangle)]
pub extern "C" fn tangle_take_in(s: &[u8], side: u32, xs: &[u16], out: &mut [u8]) -> TangleTakeIn
    ensures { TakesInForC s.now side xs.now out.old result out.new }
{
    tangle::tangle_take_in(s, side, xs, out)
}
