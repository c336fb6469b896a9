// The sheet's `E` line of an accepted record.
ghost use Rattle.std.specs.Prelude.{◌≡◌, ◌≤◌, length};
ghost use Rattle.record_fields.specs.Refusals.{refusal};
ghost use Rattle.calls_sheet.specs.Sheet.{ThirdNumber};
ghost use Rattle.calls_sheet.specs.Shown.{SaysEntangled};

use crate::lines::entangled_line;

// The entanglement in thousandths, 0 for a single leaf.
fn thousandths(s: &[u8]) -> u32
    ensures { ThirdNumber s.now result }
{
    match calls_show::thousandths(s) {
        Ok(Some(k)) => k,
        Ok(None) => 0,
        Err(_refusal) => 0,
    }
}

// D, W and the entanglement in thousandths. A single leaf has no ratio, and D and W are 0.
pub fn measures_line(s: &[u8], out: &mut [u8]) -> usize
    requires { (refusal s.now ≡ 0) × (64 ≤ length out.old) }
    ensures { SaysEntangled s.now out.old result out.new }
{
    let k = thousandths(s);
    match calls_show::squared_entanglement(s) {
        Ok(Some(squared)) => entangled_line(squared.displacement, squared.worst, k, out),
        Ok(None) => entangled_line(0, 0, k, out),
        Err(_refusal) => entangled_line(0, 0, k, out),
    }
}
