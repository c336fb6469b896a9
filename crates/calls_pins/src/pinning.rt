// Pinning a row and unpinning it: what is refused, and the one byte that changes. A held side's rows may be pinned and
// unpinned too, since nothing moves.
ghost use Rattle.calls_pins.specs.Calls.{Pins};
ghost use Rattle.record_fields.specs.Refused.{told};

use record_arrays::{is_row, put_row_byte, row_byte};
use record_fields::refusal::Refusal;
use tanglegram::Side;
use work_trees::with_pin;

// Pins a row of a side of any bytes, or unpins it: its layout byte, which turns as before; or the refusal, and no byte.
pub fn pin(s: &mut [u8], side: u16, row: u16, pinned: bool) -> Result<(), Refusal>
    ensures { Pins s.old side row pinned (told result) s.new }
{
    let side = Side::try_from(side)?;
    let n = record::read(s)?.n;
    if !is_row(n, row) {
        return Err(Refusal::Row);
    }
    let x = row_byte(s, n, side, row);
    put_row_byte(s, n, side, row, with_pin(pinned, x));
    Ok(())
}
