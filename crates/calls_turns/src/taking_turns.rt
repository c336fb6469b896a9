// Freeing a side of any bytes, and running them: what each refuses, and what each answers.
ghost use Rattle.calls_turns.specs.Answers.{freed, ran};
ghost use Rattle.calls_turns.specs.Calls.{Frees, Runs};

use record::read;
use record_fields::fields::MOST_TURNS;
use record_fields::refusal::Refusal;
use record_turns::{free_record, run_record};
use tanglegram::Side;
use work_freeing::Sums;
use work_turns::Taken;

// Frees a side of any bytes: the counts before and after, and the layout bytes of that side; or the refusal, and no
// byte. `Frees` speaks of any number for the side, and tells 13 of one that is none, so it is no `Side` yet.
pub fn free(s: &mut [u8], side: u16) -> Result<Sums, Refusal>
    ensures { Frees s.old side (freed result) s.new }
{
    let side = Side::try_from(side)?;
    let header = read(s)?;
    if header.hold.holds(side) {
        return Err(Refusal::Held);
    }
    Ok(free_record(s, header.n, side))
}

// Runs any bytes under an allowance, the left first: the first and the last count, the turns taken, whether it settled,
// and the layout bytes after exactly that many freeings; or the refusal, and no byte.
pub fn run(s: &mut [u8], allowance: u32) -> Result<Taken, Refusal>
    ensures { Runs s.old allowance (ran result) s.new }
{
    if allowance == 0 || MOST_TURNS < allowance {
        return Err(Refusal::Allowance);
    }
    let header = read(s)?;
    if header.hold.holds(Side::Left) || header.hold.holds(Side::Right) {
        return Err(Refusal::Held);
    }
    Ok(run_record(s, header.n, allowance))
}
