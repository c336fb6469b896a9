// Bytes of a text, and the digits in it.
ghost use Rattle.std.specs.Prelude.{◌≡◌, ◌+◌, ◌*◌, ◌-◌, ◌≤◌, drop, slice_get};
ghost use Rattle.newick.specs.Reading.{length_behind, length_in};
ghost use Rattle.work_newick_reading.specs.Text.{Place};
ghost use Rattle.work_newick_reading.specs.Reads.{Behind, DigitsEnd, LengthEnds, leaf_of};

// A text that is read. The readers that call each other take a reference to it, which is a single word where a slice is
// two: with a slice each open group took 48 bytes of the stack in place of 32, and 511 of them more than they may.
#[derive(Drop)]
pub struct Text<'a> {
    pub bytes: &'a [u8],
}

// Where digits end, and the leaf number that they say, if it is at most 512.
#[derive(Drop)]
pub struct DigitsRead {
    pub end: usize,
    pub leaf: Option<u16>,
}

// A number with one digit more; one that is above 512 stays so, whatever follows.
fn with_digit(x: u16, digit: u8) -> u16
    requires { (48 ≤ digit) × (digit ≤ 57) }
    ensures value { x ≤ 512 → result ≡ 10 * x + (digit - 48) }
    ensures value_2 { 513 ≤ x → result ≡ x }
{
    if 513 <= x {
        return x;
    }
    10 * x + u16::from(digit - b'0')
}

impl<'a> Text<'a> {
    // The byte at a place, if one stands there.
    pub fn byte_at(&self, at: usize) -> Option<u8>
        ensures { result ≡ slice_get self.now.bytes.now at }
    {
        self.bytes.get(at).copied()
    }

    // The place behind a byte, if that byte stands at a place.
    pub fn behind(&self, byte: u8, at: usize) -> Option<usize>
        requires { Place self.now.bytes.now at }
        ensures { Behind self.now.bytes.now byte at result }
    {
        if self.byte_at(at)? != byte {
            return None;
        }
        Some(at + 1)
    }

    // The digits from a place on.
    #[inline(always)]
    pub fn digits_from(&self, from: usize) -> DigitsRead
        requires { Place self.now.bytes.now from }
        ensures { DigitsEnd self.now.bytes.now from result.end result.leaf }
    {
        let mut x = 0;
        let mut end = from;
        while end < self.bytes.len() && self.bytes[end].is_ascii_digit() {
            x = with_digit(x, self.bytes[end]);
            end += 1;
        }
        DigitsRead {
            end,
            leaf: (x <= 512).then_some(x),
        }
    }

    // Past the length that may stand at a place, which is not the first: there, if none stands there; none where a
    // colon is followed by no length.
    #[inline(always)]
    pub fn length_end(&self, at: usize) -> Option<usize>
        requires { (1 ≤ at) × Place self.now.bytes.now at }
        ensures { LengthEnds (length_in (drop at self.now.bytes.now)) self.now.bytes.now at result }
    {
        let Some(b':') = self.byte_at(at) else {
            return Some(at);
        };
        self.length_behind(at + 1)
    }

    // Past the length whose colon was read; none where none follows it. It and the digits stand inline in the readers:
    // a call there would take more of the stack.
    #[inline(always)]
    fn length_behind(&self, from: usize) -> Option<usize>
        requires { Place self.now.bytes.now from }
        ensures { LengthEnds (length_behind (drop from self.now.bytes.now)) self.now.bytes.now from result }
    {
        let whole = self.digits_from(from).end;
        let Some(point) = self.behind(b'.', whole) else {
            return (from < whole).then_some(whole);
        };
        let end = self.digits_from(point).end;
        (from + 1 < end).then_some(end)
    }
}
