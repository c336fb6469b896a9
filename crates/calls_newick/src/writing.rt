// A side of a record written as text, as its layout stands.
ghost use Rattle.std.specs.Prelude.{ℕ, ◌≡◌};
ghost use Rattle.record_arrays.specs.Sides.{RecordOver, side_of};
ghost use Rattle.calls_newick.specs.Answers.{written_as};
ghost use Rattle.calls_newick.specs.Calls.{NewickWrites, WritesSide};

use record_arrays::fill_side;
use record_fields::refusal::Refusal;
use tanglegram::Side;
use work_newick_writing::{TreeText, count_text};

// The text of a side of an accepted record over n leaves, into a buffer's first places, if it has room, and its length.
fn write_side(s: &[u8], n: u16, side: Side, out: &mut [u8]) -> Result<u16, Refusal>
    requires { RecordOver s.now n }
    ensures { (k : ℕ) → side_of k ≡ side → WritesSide s.now k out.old (written_as result) out.new }
{
    let mut rows = [0u16; 1023];
    fill_side(s, n, side, &mut rows);
    let mut bytes = [0u16; 512];
    count_text(&rows, &mut bytes);
    let text = TreeText {
        rows: &rows,
        bytes: &bytes,
    };
    let length = text.length();
    if out.len() < length {
        return Err(Refusal::Room);
    }
    text.write(out);
    Ok(length as u16)
}

// The text of a side of any bytes, into a buffer's first places, and its length; or the refusal, and the buffer as it
// was.
pub fn newick_write(s: &[u8], side: u16, out: &mut [u8]) -> Result<u16, Refusal>
    ensures { NewickWrites s.now side out.old (written_as result) out.new }
{
    let side = Side::try_from(side)?;
    let n = record::read(s)?.n;
    write_side(s, n, side, out)
}
