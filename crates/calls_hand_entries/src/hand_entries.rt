// Hand lists as lent slices of entries, each a side and a row of 32 bits. What an entry is read as stands here; the
// walks over a list are `calls_hands`'s.
ghost use Rattle.std.specs.Prelude.{map, ◌≡◌};
ghost use Rattle.calls_hands.specs.Calls.{Hands};
ghost use Rattle.calls_hand_entries.specs.Entries.{hand_in, narrow};
ghost use Rattle.record_fields.specs.Refused.{told};

use calls_hands::{Entry, turn_each};
use record_fields::refusal::Refusal;

// An entry: its side and its row, in 32 bits, so that no number that a caller in C has is cut down to a right one.
#[repr(C)]
#[derive(Clone, Copy)]
pub struct HandEntry {
    pub side: u32,
    pub row: u32,
}

// A number in 16 bits; for one that is too large 0, which is no side and no row either.
fn narrowed(x: u32) -> u16
    ensures { result ≡ narrow x }
{
    u16::try_from(x).unwrap_or(0)
}

impl Entry for HandEntry {
    ghost names = { hand_in };

    fn side(self) -> u16 {
        narrowed(self.side)
    }

    fn row(self) -> u16 {
        narrowed(self.row)
    }
}

// Turns the rows of a hand list over in any bytes; or the refusal, and the bytes as they were.
pub fn hands_named(s: &mut [u8], list: &[HandEntry]) -> Result<(), Refusal>
    ensures { Hands s.old (map hand_in list.now) (told result) s.new }
{
    turn_each(s, list)
}
