// The calls for C on Newick text: a text read into rows, and a side of a record written as text. A refused call writes
// to no buffer.
ghost use Rattle.tangle.specs.ForC.{NewickReadsForC, NewickWritesForC};

use crate::answers::{TangleNewickRead, TangleNewickWrite};
use crate::narrowing::in_16_bits;

// Any text's rows, into the first places of a buffer, and n; or the refusal, and the buffer as it was.
#[unsafe(no_mangle)]
pub extern "C" fn tangle_newick_read(text: &[u8], out: &mut [u16]) -> TangleNewickRead
    ensures { NewickReadsForC text.now out.old result out.new }
{
    calls_newick::newick_read(text, out).into()
}

// The text of a side of any bytes, into the first places of a buffer, and its length; or the refusal, and the buffer
// as it was.
#[unsafe(no_mangle)]
pub extern "C" fn tangle_newick_write(s: &[u8], side: u32, out: &mut [u8]) -> TangleNewickWrite
    ensures { NewickWritesForC s.now side out.old result out.new }
{
    calls_newick::newick_write(s, in_16_bits(side), out).into()
}
