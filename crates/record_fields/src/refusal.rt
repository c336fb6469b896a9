// Refusals: why a call is refused, and the number that each has (docs/CALLS.md).
ghost use Rattle.std.specs.Prelude.{◌≡◌};
ghost use Rattle.record_fields.specs.Refused.{number_of, row_of};
ghost use Rattle.record_fields.specs.declared.refusal.Refusal.TheVariants as refusal;

use tanglegram::NoSide;

// Why a call is refused; of a bad row, the lowest one that breaks the tree rule.
#[derive(Clone, Copy, Debug, PartialEq, Eq)]
pub enum Refusal {
    // fewer than 8 bytes
    Short,
    // the mark isn't `TGP`
    Mark,
    // the version isn't 1
    Version,
    // the hold isn't one of the four letters
    Hold,
    // n is 0 or above 512
    Size,
    // the length isn't 12n-2; in packing, a list has the wrong length; a merge table hasn't n-1 pairs
    Length,
    // a left row breaks the tree rule
    LeftRow(u16),
    // a right row does
    RightRow(u16),
    // the links aren't one-to-one on 1 to n
    Links,
    // a layout byte is above 3
    Layout,
    // the call frees a held side, runs while a side is held, or has a hand entry for a held side
    Held,
    // the allowance is 0 or above 130,818
    Allowance,
    // the side isn't 1 (left) or 2 (right)
    Side,
    // an output buffer has too few places
    Room,
    // the row is 0 or above n-1
    Row,
    // a proposed order has fewer than n entries, or its first n aren't a compatible order
    Order,
    // a hand list is longer than 1,024
    Hands,
    // a text breaks the grammar of Newick text
    Grammar,
    // a text's leaves aren't 1 to n, each once, or n is above 512
    Leaves,
    // an entry of a merge table is zero, or names no leaf, or no earlier row
    Entry,
    // an entry of a merge table is used twice
    Twice,
    // a hand list names a pinned row
    Pinned,
    // a proposed order is compatible, but turns a pinned row otherwise than it is
    AgainstPin,
}

impl Refusal {
    // Its number.
    pub fn number(self) -> u16
        ensures { result ≡ number_of self }
    {
        match self {
            Refusal::Short => 1,
            Refusal::Mark => 2,
            Refusal::Version => 3,
            Refusal::Hold => 4,
            Refusal::Size => 5,
            Refusal::Length => 6,
            Refusal::LeftRow(_) => 7,
            Refusal::RightRow(_) => 8,
            Refusal::Links => 9,
            Refusal::Layout => 10,
            Refusal::Held => 11,
            Refusal::Allowance => 12,
            Refusal::Side => 13,
            Refusal::Room => 14,
            Refusal::Row => 15,
            Refusal::Order => 16,
            Refusal::Hands => 17,
            Refusal::Grammar => 18,
            Refusal::Leaves => 19,
            Refusal::Entry => 20,
            Refusal::Twice => 21,
            Refusal::Pinned => 22,
            Refusal::AgainstPin => 23,
        }
    }

    // The row that it tells, or 0.
    pub fn row(self) -> u16
        ensures { result ≡ row_of self }
    {
        match self {
            Refusal::LeftRow(row) | Refusal::RightRow(row) => row,
            _ => 0,
        }
    }
}

impl From<NoSide> for Refusal {
    ghost from_gives = { λ _ r. r ≡ refusal.Side };

    fn from(_error: NoSide) -> Refusal {
        Refusal::Side
    }
}
