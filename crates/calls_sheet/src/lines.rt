// The lines of a sheet, each put into the first places of lent memory, and how many bytes it has.
ghost use Rattle.std.specs.Prelude.{◌≤◌, length, ◌≡◌};
ghost use Rattle.calls_sheet.specs.Lines.{count_line, ending, entangled_line, heading_line, order_line};
ghost use Rattle.calls_sheet.specs.Lines.{refused_line, turns_line};
ghost use Rattle.record_fields.specs.Holds.{letter_of};
ghost use Rattle.record_fields.specs.Refused.{number_of, refused_row, row_of};
ghost use Rattle.work_text.specs.Puts.{Puts};

use record::Header;
use record_fields::refusal::Refusal;
use work_text::{put, put_line, put_next};
use work_turns::Taken;

// Mark, version, hold, n.
pub fn heading_line(header: Header, out: &mut [u8]) -> usize
    requires { 64 ≤ length out.old }
    ensures { Puts (heading_line (letter_of header.hold) header.n) out.old 0 result out.new }
{
    let first = [b'T', b'G', b'P', b' ', b'1', b' ', header.hold.letter()];
    let numbers = [u32::from(header.n)];
    put_line(&first, &numbers, out, 0)
}

// A side's letter and its order.
pub fn order_line(letter: u8, order: &[u16], out: &mut [u8]) -> usize
    requires { length (order_line letter order.now) ≤ length out.old }
    ensures { Puts (order_line letter order.now) out.old 0 result out.new }
{
    let first = [letter];
    put_line(&first, order, out, 0)
}

// The count.
pub fn count_line(count: u32, out: &mut [u8]) -> usize
    requires { 64 ≤ length out.old }
    ensures { Puts (count_line count) out.old 0 result out.new }
{
    let numbers = [count];
    put_line(b"X", &numbers, out, 0)
}

// D, W and the entanglement in thousandths.
pub fn entangled_line(d: u32, w: u32, k: u32, out: &mut [u8]) -> usize
    requires { 64 ≤ length out.old }
    ensures { Puts (entangled_line d w k) out.old 0 result out.new }
{
    let numbers = [d, w, k];
    put_line(b"E", &numbers, out, 0)
}

// `S` for a run that settled, `U` for one that did not.
fn ending_letter(settled: bool) -> u8
    ensures { result ≡ ending settled }
{
    if settled { b'S' } else { b'U' }
}

// Turns, `S` settled or `U` not, last count.
pub fn turns_line(taken: Taken, out: &mut [u8]) -> usize
    requires { 64 ≤ length out.old }
    ensures { Puts (turns_line taken.turns taken.settled taken.last) out.old 0 result out.new }
{
    let begun = put(b"T", out, 0);
    let told = put_next(taken.turns, out, begun);
    let first = [b' ', ending_letter(taken.settled)];
    let numbers = [taken.last];
    put_line(&first, &numbers, out, told)
}

// `REFUSED`, a refusal's number, and the bad row of 7 and 8.
pub fn refused_line(refusal: Refusal, out: &mut [u8]) -> usize
    requires { 64 ≤ length out.old }
    ensures { Puts (refused_line (refused_row (number_of refusal) (row_of refusal))) out.old 0 result out.new }
{
    let number = u32::from(refusal.number());
    let row = u32::from(refusal.row());
    if row == 0 {
        let numbers = [number];
        return put_line(b"REFUSED", &numbers, out, 0);
    }
    let numbers = [number, row];
    put_line(b"REFUSED", &numbers, out, 0)
}
