// Setting the hold: one letter in its place, and nothing else.
ghost use Rattle.record.specs.Calls.{SetsHold};
ghost use Rattle.record_fields.specs.Refused.{told};

use crate::reading::read;
use record_fields::fields::HOLD_AT;
use record_fields::hold::Hold;
use record_fields::refusal::Refusal;

// Puts the letter into an accepted record; else it answers the refusal and changes nothing. The letter's refusal comes
// before the record's.
pub fn set_hold(s: &mut [u8], letter: u8) -> Result<(), Refusal>
    ensures { SetsHold s.old letter (told result) s.new }
{
    let hold = Hold::try_from(letter)?;
    read(s)?;
    s[HOLD_AT] = hold.letter();
    Ok(())
}
