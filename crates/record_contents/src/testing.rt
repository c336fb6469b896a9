// The tests of a record's contents, behind the refusals 7 to 10: on parts, wherever they stand, and on a record's bytes.
ghost use Rattle.std.specs.Prelude.{◌≡◌, ℕ, ◌-◌, ◌*◌, ◌≤◌, length};
ghost use Rattle.record_fields.specs.Fields.{given, most_leaves, parts_of, Sized};
ghost use Rattle.record_fields.specs.Refusals.{is_layout};
ghost use Rattle.record_fields.specs.Refused.{told};
ghost use Rattle.record_fields.specs.Told.{ToldContents};

use crate::links::one_to_one;
use record_fields::fields::{
    LEFT_ROWS_AT, left_layout_at, links_at, right_layout_at, right_rows_at,
};
use record_fields::numbers::NumbersAt;
use record_fields::refusal::Refusal;
use work_tree_rule::{Numbers, bad_row};

// Whether no byte is above 3.
pub fn is_layout(bytes: &[u8]) -> bool
    ensures { result ≡ is_layout bytes.now }
{
    bytes.iter().all(|x| *x <= 3)
}

// Tests parts over n leaves: the rows, flat, upper then lower, the links and the layouts. What they say of the hold plays
// no part.
pub fn test_parts<T: Numbers>(
    n: u16,
    left: &T,
    right: &T,
    links: &T,
    leftlayout: &[u8],
    rightlayout: &[u8],
) -> Result<(), Refusal>
    requires sized { (1 ≤ n) × (n ≤ most_leaves) }
    requires rows { (length (T.list left.now) ≡ 2 * (n - 1)) × (length (T.list right.now) ≡ 2 * (n - 1)) }
    requires links { length (T.list links.now) ≡ n }
    ensures { (h : ℕ) →
        ToldContents
        (given h n (T.list left.now) (T.list right.now) (T.list links.now) leftlayout.now rightlayout.now)
        (told result) }
{
    if let Some(row) = bad_row(left, n as usize) {
        return Err(Refusal::LeftRow(row));
    }
    if let Some(row) = bad_row(right, n as usize) {
        return Err(Refusal::RightRow(row));
    }
    if !one_to_one(links, n) {
        return Err(Refusal::Links);
    }
    if !is_layout(leftlayout) {
        return Err(Refusal::Layout);
    }
    if !is_layout(rightlayout) {
        return Err(Refusal::Layout);
    }
    Ok(())
}

// Tests the parts of a record over n leaves.
pub fn contents(s: &[u8], n: u16) -> Result<(), Refusal>
    requires { Sized s.now n }
    ensures { ToldContents (parts_of s.now n) (told result) }
{
    let m = 2 * (n as usize - 1);
    let left = NumbersAt {
        bytes: s,
        at: LEFT_ROWS_AT,
        many: m,
    };
    let right = NumbersAt {
        bytes: s,
        at: right_rows_at(n),
        many: m,
    };
    let links = NumbersAt {
        bytes: s,
        at: links_at(n),
        many: n as usize,
    };
    let from = left_layout_at(n);
    let to = right_layout_at(n);
    test_parts(n, &left, &right, &links, &s[from..to], &s[to..])
}
