// Reading a record: what its heading says, or the refusal.
ghost use Rattle.std.specs.Prelude.{◌≡◌, IfOk};
ghost use Rattle.record.specs.Calls.{Checks, Reads, reading};
ghost use Rattle.record_fields.specs.Holds.{letter_of};
ghost use Rattle.record_fields.specs.Fields.{hold_of};
ghost use Rattle.record_fields.specs.Refusals.{RecordOver};
ghost use Rattle.record_fields.specs.Refused.{told};

use crate::heading::{Header, heading};
use record_contents::contents;
use record_fields::refusal::Refusal;

// Reads any bytes: what an accepted record's heading says, or the refusal, 1 to 10.
pub fn read(s: &[u8]) -> Result<Header, Refusal>
    ensures reads { Reads s.now (reading result) }
    ensures over { IfOk result (λ h. RecordOver s.now h.n × (letter_of h.hold ≡ hold_of s.now)) }
{
    let header = heading(s)?;
    contents(s, header.n)?;
    Ok(header)
}

// Checks any bytes: whether they are a record.
pub fn check(s: &[u8]) -> Result<(), Refusal>
    ensures { Checks s.now (told result) }
{
    read(s)?;
    Ok(())
}
