// The sheet's line of a run, which runs the record.
ghost use Rattle.std.specs.Prelude.{◌≤◌, length};
ghost use Rattle.calls_sheet.specs.Shown.{SaysRun};

use crate::lines::{refused_line, turns_line};
use record_fields::fields::MOST_TURNS;

// Runs the record with the largest allowance: turns, `S` settled or `U` not, last count; or why it is not run.
pub fn run_line(s: &mut [u8], out: &mut [u8]) -> usize
    requires { 64 ≤ length out.old }
    ensures { SaysRun s.old out.old result out.new s.new }
{
    match calls_turns::run(s, MOST_TURNS) {
        Ok(taken) => turns_line(taken, out),
        Err(refusal) => refused_line(refusal, out),
    }
}
