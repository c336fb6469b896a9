// The calls that only show: a side's order, the count by seen places and pair by pair, the entanglement squared and in
// thousandths.
ghost use Rattle.calls_show.specs.Answers.{counted, squared};
ghost use Rattle.calls_show.specs.Calls.{Counts, Orders, SquaredEntangles, TellsThousandths};
ghost use Rattle.calls_show.specs.Displaced.{DisplacedOf};
ghost use Rattle.calls_show.specs.InThousandths.{in_thousandths};
ghost use Rattle.record_fields.specs.Refused.{told};

use crate::answers::Measured;
use crate::counting::{record_displaced, record_paired, record_seen};
use record::read;
use record_arrays::side_order;
use record_fields::refusal::Refusal;
use tanglegram::Side;

// The order of a side of any bytes, into a buffer's first places; or the refusal, and the buffer as it was.
// `Orders` speaks of any number for the side, and tells 13 of one that is none, so it is no `Side` yet.
pub fn order(s: &[u8], side: u16, out: &mut [u16]) -> Result<(), Refusal>
    ensures { Orders s.now side out.old (told result) out.new }
{
    let side = Side::try_from(side)?;
    let header = read(s)?;
    let n = header.n as usize;
    if out.len() < n {
        return Err(Refusal::Room);
    }
    let mut made = [0u16; 512];
    side_order(s, header.n, side, &mut made);
    out[..n].copy_from_slice(&made[..n]);
    Ok(())
}

// The count of any bytes' crossings by seen places, or the refusal.
pub fn count(s: &[u8]) -> Result<u32, Refusal>
    ensures { Counts s.now (counted result) }
{
    let header = read(s)?;
    Ok(record_seen(s, header.n))
}

// The same, pair by pair. One function over both would be no plainer: each is a test and a count.
pub fn pairs(s: &[u8]) -> Result<u32, Refusal>
    ensures { Counts s.now (counted result) }
{
    let header = read(s)?;
    Ok(record_paired(s, header.n))
}

// D and W of any bytes, or none for a single leaf, or the refusal.
fn displaced(s: &[u8]) -> Result<Option<(u32, u32)>, Refusal>
    ensures { DisplacedOf s.now result }
{
    let header = read(s)?;
    if header.n == 1 {
        return Ok(None);
    }
    let d = record_displaced(s, header.n);
    let w = work_displacement::worst_value(header.n as usize);
    Ok(Some((d, w)))
}

// The squared entanglement of any bytes: D, W and their ratio, or none for a single leaf, or the refusal.
pub fn squared_entanglement(s: &[u8]) -> Result<Option<Measured>, Refusal>
    ensures { SquaredEntangles s.now (squared result) }
{
    match displaced(s)? {
        Some((d, w)) => Ok(Some(Measured {
            displacement: d,
            worst: w,
            ratio: (d as f64) / (w as f64),
        })),
        None => Ok(None),
    }
}

// The entanglement of any bytes in thousandths, or none for a single leaf, or the refusal.
pub fn thousandths(s: &[u8]) -> Result<Option<u32>, Refusal>
    ensures { TellsThousandths s.now (in_thousandths result) }
{
    match displaced(s)? {
        Some((d, w)) => Ok(Some(work_displacement::thousandths(d, w))),
        None => Ok(None),
    }
}
