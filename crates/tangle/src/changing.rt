// The calls for C that change the lent record, and nothing else: hold, pin, free, run and hand lists. A refused call
// changes no byte.
ghost use Rattle.std.specs.Prelude.{map};
ghost use Rattle.calls_hand_entries.specs.Entries.{hand_in};
ghost use Rattle.tangle.specs.ForC.{FreesForC, HandsForC, PinsForC, RunsForC, SetsHoldForC};

use crate::answers::{TangleFree, TangleRefusal, TangleRun};
use crate::narrowing::{in_8_bits, in_16_bits};
use calls_hand_entries::hand_entries::HandEntry;

// Sets the hold of any bytes: the letter in byte 5; or the refusal, and no byte.
#[unsafe(no_mangle)]
pub extern "C" fn tangle_hold(s: &mut [u8], letter: u32) -> TangleRefusal
    ensures { SetsHoldForC s.old letter result s.new }
{
    record::set_hold(s, in_8_bits(letter)).into()
}

// Pins a row of a side of any bytes, or unpins it where `pin` is 0: that row's layout byte; or the refusal, and no
// byte.
#[unsafe(no_mangle)]
pub extern "C" fn tangle_pin(s: &mut [u8], side: u32, row: u32, pin: u32) -> TangleRefusal
    ensures { PinsForC s.old side row pin result s.new }
{
    calls_pins::pin(s, in_16_bits(side), in_16_bits(row), pin != 0).into()
}

// Frees a side of any bytes: the counts, and the layout bytes of that side; or the refusal, and no byte.
#[unsafe(no_mangle)]
pub extern "C" fn tangle_free(s: &mut [u8], side: u32) -> TangleFree
    ensures { FreesForC s.old side result s.new }
{
    calls_turns::free(s, in_16_bits(side)).into()
}

// Runs any bytes under an allowance: the five numbers, and the layout bytes; or the refusal, and no byte.
#[unsafe(no_mangle)]
pub extern "C" fn tangle_run(s: &mut [u8], allowance: u32) -> TangleRun
    ensures { RunsForC s.old allowance result s.new }
{
    calls_turns::run(s, allowance).into()
}

// Turns the rows of a hand list over in any bytes, entry after entry; or the refusal, and no byte.
#[unsafe(no_mangle)]
pub extern "C" fn tangle_hands(s: &mut [u8], list: &[HandEntry]) -> TangleRefusal
    ensures { HandsForC s.old (map hand_in list.now) result s.new }
{
    calls_hand_entries::hands_named(s, list).into()
}
