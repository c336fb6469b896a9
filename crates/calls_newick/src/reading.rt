// A text read: tested as a whole against the grammar, then its leaves, then the room; only then are rows written.
ghost use Rattle.calls_newick.specs.Answers.{read_as};
ghost use Rattle.calls_newick.specs.Calls.{NewickReads};

use record_fields::refusal::Refusal;
use work_newick_reading::{Notes, read_text};

// Any text's rows, into a buffer's first places, and n; or the refusal, and the buffer as it was.
pub fn newick_read(text: &[u8], out: &mut [u16]) -> Result<u16, Refusal>
    ensures { NewickReads text.now out.old (read_as result) out.new }
{
    let mut notes = Notes::new();
    if !read_text(text, &mut notes) {
        return Err(Refusal::Grammar);
    }
    let n = notes.leaf_count().ok_or(Refusal::Leaves)?;
    if !notes.leaves_once(n) {
        return Err(Refusal::Leaves);
    }
    if out.len() < 2 * (n as usize - 1) {
        return Err(Refusal::Room);
    }
    notes.rows_out(n, out);
    Ok(n)
}
