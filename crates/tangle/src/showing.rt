// The calls for C that only show a record: check, order, count, pairs, squared entanglement and thousandths. None
// writes to the record; an order is written to its buffer, unless it is refused.
ghost use Rattle.tangle.specs.ForC.{ChecksForC, CountsForC, OrdersForC};
ghost use Rattle.tangle.specs.ForC.{SquaredEntanglesForC, TellsThousandthsForC};

use crate::answers::{TangleCount, TangleRefusal, TangleSquaredEntanglement, TangleThousandths};
use crate::narrowing::in_16_bits;

// Whether any bytes are a record: 0, or the refusal.
#[unsafe(no_mangle)]
pub extern "C" fn tangle_check(s: &[u8]) -> TangleRefusal
    ensures { ChecksForC s.now result }
{
    record::check(s).into()
}

// A side's leaf order, into the first places of a buffer; or the refusal, and the buffer as it was.
#[unsafe(no_mangle)]
pub extern "C" fn tangle_order(s: &[u8], side: u32, out: &mut [u16]) -> TangleRefusal
    ensures { OrdersForC s.now side out.old result out.new }
{
    calls_show::order(s, in_16_bits(side), out).into()
}

// The count of any bytes' crossings, by seen places; or the refusal.
#[unsafe(no_mangle)]
pub extern "C" fn tangle_count(s: &[u8]) -> TangleCount
    ensures { CountsForC s.now result }
{
    calls_show::count(s).into()
}

// The same count, pair by pair.
#[unsafe(no_mangle)]
pub extern "C" fn tangle_pairs(s: &[u8]) -> TangleCount
    ensures { CountsForC s.now result }
{
    calls_show::pairs(s).into()
}

// The squared entanglement of any bytes: D, W and their ratio, or no ratio for a single leaf; or the refusal.
#[unsafe(no_mangle)]
pub extern "C" fn tangle_squared_entanglement(s: &[u8]) -> TangleSquaredEntanglement
    ensures { SquaredEntanglesForC s.now result }
{
    calls_show::squared_entanglement(s).into()
}

// The entanglement of any bytes in thousandths, or no ratio for a single leaf; or the refusal.
#[unsafe(no_mangle)]
pub extern "C" fn tangle_thousandths(s: &[u8]) -> TangleThousandths
    ensures { TellsThousandthsForC s.now result }
{
    calls_show::thousandths(s).into()
}
