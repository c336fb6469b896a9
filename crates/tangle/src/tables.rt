// The calls for C on merge tables with signs: a table read into rows, and a side of a record written as a table. A
// refused call writes to no buffer.
ghost use Rattle.tangle.specs.ForC.{MergeReadsForC, MergeWritesForC};

use crate::answers::TangleRefusal;
use crate::narrowing::in_16_bits;

// The rows that any table over n leaves says, into the first places of a buffer; or the refusal, and the buffer as it
// was.
#[unsafe(no_mangle)]
pub extern "C" fn tangle_merge_read(n: u32, table: &[i32], out: &mut [u16]) -> TangleRefusal
    ensures { MergeReadsForC n table.now out.old result out.new }
{
    calls_merge::merge_read(in_16_bits(n), table, out).into()
}

// The table of a side of any bytes, into the first places of a buffer; or the refusal, and the buffer as it was.
#[unsafe(no_mangle)]
pub extern "C" fn tangle_merge_write(s: &[u8], side: u32, out: &mut [i32]) -> TangleRefusal
    ensures { MergeWritesForC s.now side out.old result out.new }
{
    calls_merge::merge_write(s, in_16_bits(side), out).into()
}
