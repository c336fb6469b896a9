// A table read: n and the table's length, then each test over the whole table, then the room; only then are rows
// written.
ghost use Rattle.calls_merge.specs.Calls.{MergeReads};
ghost use Rattle.record_fields.specs.Refused.{told};

use record::heading::no_size;
use record_fields::refusal::Refusal;
use work_merge::{any_names_none, any_twice, rows_out};

// The rows that any table over n leaves says, into a buffer's first places; or the refusal, and the buffer as it was.
pub fn merge_read(n: u16, table: &[i32], out: &mut [u16]) -> Result<(), Refusal>
    ensures { MergeReads n table.now out.old (told result) out.new }
{
    if no_size(n) {
        return Err(Refusal::Size);
    }
    let m = 2 * (n as usize - 1);
    if table.len() != m {
        return Err(Refusal::Length);
    }
    if any_names_none(table, n) {
        return Err(Refusal::Entry);
    }
    if any_twice(table, n) {
        return Err(Refusal::Twice);
    }
    if out.len() < m {
        return Err(Refusal::Room);
    }
    rows_out(table, n, out);
    Ok(())
}
