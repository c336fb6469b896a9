// A side of a record written as a table: its rows as they are given, read where they stand in the record.
ghost use Rattle.std.specs.Prelude.{◌≡◌, ◌-◌, ◌*◌, ◌≤◌, length};
ghost use Rattle.std.proofs.lemmas.List.Edits.{sets};
ghost use Rattle.calls_merge.specs.Calls.{MergeWrites};
ghost use Rattle.record_arrays.specs.Sides.{RecordOver};
ghost use Rattle.record_fields.specs.Fields.{parts};
ghost use Rattle.record_fields.specs.Meaning.{rows_on};
ghost use Rattle.record_fields.specs.Refused.{told};
ghost use Rattle.merge.specs.Tables.{table_for};

use record_arrays::rows_at;
use record_fields::copying::number;
use record_fields::refusal::Refusal;
use tanglegram::Side;
use work_merge::entry_for;

// Writes the table of a side of an accepted record over n leaves to a buffer's first places.
fn table_out(s: &[u8], n: u16, side: Side, out: &mut [i32])
    requires { RecordOver s.now n × (2 * (n - 1) ≤ length out.old) }
    ensures { out.new ≡ sets out.old 0 (table_for n (rows_on (parts s.now) side)) }
{
    let from = rows_at(n, side);
    for k in 0..2 * (n as usize - 1) {
        out[k] = entry_for(number(s, from + 2 * k), n);
    }
}

// The table of a side of any bytes, into a buffer's first places; or the refusal, and the buffer as it was.
pub fn merge_write(s: &[u8], side: u16, out: &mut [i32]) -> Result<(), Refusal>
    ensures { MergeWrites s.now side out.old (told result) out.new }
{
    let side = Side::try_from(side)?;
    let n = record::read(s)?.n;
    if out.len() < 2 * (n as usize - 1) {
        return Err(Refusal::Room);
    }
    table_out(s, n, side, out);
    Ok(())
}
