// Text put into lent memory from a place on. Each function answers the place after its text, and keeps every other
// byte.
ghost use Rattle.std.specs.Prelude.{◌+◌, ◌≤◌, length};
ghost use Rattle.work_text.specs.Decimal.{decimal};
ghost use Rattle.work_text.specs.Lines.{next};
ghost use Rattle.work_text.specs.Puts.{Puts};

// Bytes as they are.
pub fn put(s: &[u8], out: &mut [u8], at: usize) -> usize
    requires { at + length s.now ≤ length out.old }
    ensures { Puts s.now out.old at result out.new }
{
    let end = at + s.len();
    out[at..end].copy_from_slice(s);
    end
}

// A number in decimal digits.
pub fn put_number(x: u64, out: &mut [u8], at: usize) -> usize
    requires { at + length (decimal x) ≤ length out.old }
    ensures { Puts (decimal x) out.old at result out.new }
{
    let mut digits = [0u8; 20];
    let k = io::decimal(x, &mut digits);
    put(&digits[..k], out, at)
}

// A space, and a number in decimal digits.
pub fn put_next(x: u32, out: &mut [u8], at: usize) -> usize
    requires { at + length (next x) ≤ length out.old }
    ensures { Puts (next x) out.old at result out.new }
{
    let from = put(b" ", out, at);
    put_number(u64::from(x), out, from)
}
