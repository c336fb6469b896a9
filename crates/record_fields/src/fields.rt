// The numbers of a record (docs/RECORD.md), each here and nowhere else: the limits, the mark, and where each part of
// the bytes stands. Whatever reads or writes a record's bytes asks here.
ghost use Rattle.std.specs.Prelude.{◌≡◌, ◌≤◌, length};
ghost use Rattle.record_fields.specs.Fields.{hold_of, left_layout_at, length_of, links_at};
ghost use Rattle.record_fields.specs.Fields.{right_at, right_layout_at, size_of};

use crate::copying::number;

// the most leaves of a record
pub const MOST_LEAVES: u16 = 512;
// the most entries of a hand list
pub const MOST_HANDS: usize = 1024;
// the most turns of a run
pub const MOST_TURNS: u32 = 130818;
// the places of an array that has one for each leaf
pub const LEAVES: usize = MOST_LEAVES as usize;
// the places of an array that has one for each object
pub const OBJECTS: usize = 2 * LEAVES;
// a record's first bytes
pub const MARK_TGP: [u8; 3] = [b'T', b'G', b'P'];
// the version of the format
pub const VERSION_1: u16 = 1;
// where the version stands in a record
pub const VERSION_AT: usize = 3;
// where the hold stands
pub const HOLD_AT: usize = 5;
// where n stands
pub const SIZE_AT: usize = 6;
// where the left rows begin: after the first eight bytes, which every record has
pub const LEFT_ROWS_AT: usize = 8;

// Where the right rows of a record over n leaves begin.
pub fn right_rows_at(n: u16) -> usize
    requires { 1 ≤ n }
    ensures { result ≡ right_at n }
{
    LEFT_ROWS_AT + 4 * (usize::from(n) - 1)
}

// Where its links begin.
pub fn links_at(n: u16) -> usize
    requires { 1 ≤ n }
    ensures { result ≡ links_at n }
{
    LEFT_ROWS_AT + 8 * (usize::from(n) - 1)
}

// Where its left layout begins.
pub fn left_layout_at(n: u16) -> usize
    requires { 1 ≤ n }
    ensures { result ≡ left_layout_at n }
{
    links_at(n) + 2 * usize::from(n)
}

// Where its right layout begins.
pub fn right_layout_at(n: u16) -> usize
    requires { 1 ≤ n }
    ensures { result ≡ right_layout_at n }
{
    left_layout_at(n) + (usize::from(n) - 1)
}

// How many bytes it has.
pub fn length_of(n: u16) -> usize
    requires { 1 ≤ n }
    ensures { result ≡ length_of n }
{
    12 * usize::from(n) - 2
}

// The hold that a record's first eight bytes say.
pub fn hold_of(s: &[u8]) -> u8
    requires { 8 ≤ length s.now }
    ensures { result ≡ hold_of s.now }
{
    s[HOLD_AT]
}

// The n that they say.
pub fn size_of(s: &[u8]) -> u16
    requires { 8 ≤ length s.now }
    ensures { result ≡ size_of s.now }
{
    number(s, SIZE_AT)
}
