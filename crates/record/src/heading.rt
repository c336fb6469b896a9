// The tests of a record's first eight bytes and its length, behind the refusals 1 to 6, and what they say.
ghost use Rattle.std.specs.Prelude.{◌≡◌, ◌≤◌, length, IfOk};
ghost use Rattle.record.specs.Heading.{HeadingSays};
ghost use Rattle.record_fields.specs.Refusals.{heading_refusal, is_mark, no_size};
ghost use Rattle.record_fields.specs.Refused.{refused, told};

use record_fields::copying::number;
use record_fields::fields::{
    HOLD_AT, LEFT_ROWS_AT, MARK_TGP, MOST_LEAVES, SIZE_AT, VERSION_1, VERSION_AT, length_of,
};
use record_fields::hold::Hold;
use record_fields::refusal::Refusal;

// What a record's heading says.
#[derive(Clone, Copy, Debug, PartialEq, Eq)]
pub struct Header {
    pub hold: Hold,
    pub n: u16,
}

// Whether bytes 0 to 2 are `TGP`.
fn is_mark(s: &[u8]) -> bool
    requires { 8 ≤ length s.now }
    ensures { result ≡ is_mark s.now }
{
    s.starts_with(&MARK_TGP)
}

// Whether n is 0 or above 512.
pub fn no_size(n: u16) -> bool
    ensures { result ≡ no_size n }
{
    n == 0 || MOST_LEAVES < n
}

// Tests the first eight bytes and the length.
pub fn heading(s: &[u8]) -> Result<Header, Refusal>
    ensures tells { told result ≡ refused (heading_refusal s.now) }
    ensures says { IfOk result (λ h. HeadingSays s.now h) }
{
    if s.len() < LEFT_ROWS_AT {
        return Err(Refusal::Short);
    }
    if !is_mark(s) {
        return Err(Refusal::Mark);
    }
    if number(s, VERSION_AT) != VERSION_1 {
        return Err(Refusal::Version);
    }
    let hold = Hold::try_from(s[HOLD_AT])?;
    let n = number(s, SIZE_AT);
    if no_size(n) {
        return Err(Refusal::Size);
    }
    if s.len() != length_of(n) {
        return Err(Refusal::Length);
    }
    Ok(Header { hold, n })
}
