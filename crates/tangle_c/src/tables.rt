// The calls for C on merge tables with signs: a table read into rows, and a side of a record written as a table.
ghost use Rattle.tangle.specs.ForC.{MergeReadsForC, MergeWritesForC};

use tangle::answers::TangleRefusal;

// The rows that any table over n leaves says, into the first places of a buffer; or the refusal, and the buffer as it
// was.
#[unsafe(no_mangle)]
pub extern "C" fn tangle_merge_read(n: u32, table: &[i32], out: &mut [u16]) -> TangleRefusal
    ensures { MergeReadsForC n table.now out.old result out.new }
{
    tangle::tangle_merge_read(n, table, out)
}

// The table of a side of any bytes, into the first places of a buffer; or the refusal, and the buffer as it was.
#[unsafe(no_mangle)]
pub extern "C" fn tangle_merge_write(s: &[u8], side: u32, out: &mut [i32]) -> TangleRefusal
    ensures { MergeWritesForC s.now side out.old result out.new }
{
    tangle::tangle_merge_write(s, side, out)
}
