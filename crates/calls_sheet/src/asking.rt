// The sheet of any bytes, asked for line by line.
ghost use Rattle.std.specs.Prelude.{IfErr, cond, [], ◌≡◌, ◌≤◌, eqb, length};
ghost use Rattle.calls_sheet.specs.Calls.{SaysLine};
ghost use Rattle.calls_sheet.specs.Lines.{refused_line};
ghost use Rattle.record_fields.specs.Refused.{number_of, refused_row, row_of};
ghost use Rattle.work_text.specs.Puts.{Puts};

use crate::lines::refused_line;
use crate::running::run_line;
use crate::showing::shown_line;
use record::Header;
use record_fields::refusal::Refusal;

// The only line of bytes that are refused is the first.
fn refused_at(refusal: Refusal, k: usize, out: &mut [u8]) -> usize
    requires { 64 ≤ length out.old }
    ensures { Puts (cond (eqb k 1) (refused_line (refused_row (number_of refusal) (row_of refusal))) [])
        out.old 0 result out.new }
{
    if k == 1 {
        return refused_line(refusal, out);
    }
    0
}

// The line of bytes that a reading refuses.
fn refused_in(reading: Result<Header, Refusal>, k: usize, out: &mut [u8]) -> usize
    requires { 64 ≤ length out.old }
    ensures { IfErr reading (λ r.
        Puts (cond (eqb k 1) (refused_line (refused_row (number_of r) (row_of r))) []) out.old 0 result out.new) }
{
    match reading {
        Ok(_header) => 0,
        Err(refusal) => refused_at(refusal, k, out),
    }
}

// Puts line k, from 1 to 8, of the sheet of any bytes into out's first places, and answers how many bytes it has: none
// where the sheet has no such line. Line 6 runs the record; lines 7 and 8 show it as that left it. Whoever asks for the
// eight lines in their order has the sheet.
pub fn line(s: &mut [u8], k: usize, out: &mut [u8; 1942]) -> usize
    ensures { SaysLine s.old k out.old result out.new s.new }
{
    let reading = record::read(s);
    let Ok(header) = reading else {
        return refused_in(reading, k, out);
    };
    if k == 6 {
        return run_line(s, out);
    }
    shown_line(s, header, k, out)
}
