// Hand lists. Each entry is a side and a row; all are tested before any row is turned over, so that a refused list
// changes nothing.
ghost use Rattle.std.specs.Prelude.{[], ◌∷◌, map, ◌≡◌, ◌<◌, ◌≤◌};
ghost use Rattle.record_fields.specs.Fields.{hold_of};
ghost use Rattle.record_fields.specs.Holds.{letter_of};
ghost use Rattle.record_fields.specs.Meaning.{layouts_of, relaid};
ghost use Rattle.record_fields.specs.Refused.{refused, told};
ghost use Rattle.record_arrays.specs.Sides.{RecordOver};
ghost use Rattle.calls_hands.specs.Calls.{handed, Hands};
ghost use Rattle.calls_hands.specs.Refusals.{hand_refusal, entries_refusal, hand, hand_of};

use crate::entries::Entry;
use record::Header;
use record_arrays::{is_row, put_row_byte, row_byte, side_of};
use record_fields::fields::MOST_HANDS;
use record_fields::refusal::Refusal;
use tanglegram::Side;
use work_trees::{flipped, may_change};

// Tests an entry's side and row for an accepted record with that heading.
pub fn test_hand(s: &[u8], header: Header, side: u16, row: u16) -> Result<(), Refusal>
    requires record_over { RecordOver s.now header.n }
    requires holds { letter_of header.hold ≡ hold_of s.now }
    ensures { told result ≡ refused (hand_refusal s.now (hand side row)) }
{
    let side = Side::try_from(side)?;
    if !is_row(header.n, row) {
        return Err(Refusal::Row);
    }
    if header.hold.holds(side) {
        return Err(Refusal::Held);
    }
    if !may_change(row_byte(s, header.n, side, row)) {
        return Err(Refusal::Pinned);
    }
    Ok(())
}

// Turns one row of an accepted record over: one layout byte, and no other byte. Any number but 1 means the right side;
// held sides and pinned rows are for `test_hand`.
pub fn turn_hand(s: &mut [u8], n: u16, side: u16, row: u16)
    requires record_over { RecordOver s.old n }
    requires le_row { (1 ≤ row) × (row < n) }
    ensures { s.new ≡ relaid s.old (handed (layouts_of s.old) (hand side row ∷ [])) }
{
    let side = side_of(side);
    let x = row_byte(s, n, side, row);
    put_row_byte(s, n, side, row, flipped(x));
}

// Tests each entry for an accepted record with that heading; the first bad one decides.
fn test_each<E: Entry>(s: &[u8], header: Header, list: &[E]) -> Result<(), Refusal>
    requires record_over { RecordOver s.now header.n }
    requires holds { letter_of header.hold ≡ hold_of s.now }
    ensures { told result ≡ refused (entries_refusal s.now (map E.names list.now)) }
{
    for entry in list {
        test_hand(s, header, entry.side(), entry.row())?;
    }
    Ok(())
}

// Turns each entry's row over, entry after entry, in an accepted record of which no entry is bad.
fn turn_good<E: Entry>(s: &mut [u8], n: u16, list: &[E])
    requires record_over { RecordOver s.old n }
    requires none_bad { entries_refusal s.old (map E.names list.now) ≡ 0 }
    ensures { s.new ≡ relaid s.old (handed (layouts_of s.old) (map E.names list.now)) }
{
    for entry in list {
        turn_hand(s, n, entry.side(), entry.row());
    }
}

// Turns the rows of a hand list over in any bytes; or the refusal, and the bytes as they were.
pub fn turn_each<E: Entry>(s: &mut [u8], list: &[E]) -> Result<(), Refusal>
    ensures { Hands s.old (map E.names list.now) (told result) s.new }
{
    if MOST_HANDS < list.len() {
        return Err(Refusal::Hands);
    }
    let header = record::read(s)?;
    test_each(s, header, list)?;
    turn_good(s, header.n, list);
    Ok(())
}

// The same where each entry is one number.
pub fn hands(s: &mut [u8], list: &[u32]) -> Result<(), Refusal>
    ensures { Hands s.old (map hand_of list.now) (told result) s.new }
{
    turn_each(s, list)
}
