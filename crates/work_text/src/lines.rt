// Numbers, each behind a space, and lines that end with them, put into lent memory from a place on.
ghost use Rattle.std.specs.Prelude.{List, ℕ, [], ◌∷◌, ◌≡◌, ◌+◌, ◌<◌, ◌≤◌, get_or, length};
ghost use Rattle.work_text.specs.Lines.{line, line_feed, spaced};
ghost use Rattle.work_text.specs.Puts.{Puts};
ghost use Rattle.work_text.specs.Numbers.{same_length, same_read};

use crate::putting::{put, put_next};

// A number of a list that a line has: one of 16 or of 32 bits.
pub trait Number: Copy {
    ghost value: { Self → ℕ };

    // The numbers of a list.
    ghost values: { List Self → List ℕ };

    fn wide(self) -> u32
        ensures { result ≡ value self };

    ghost as_long: { (xs : List Self) → length (values xs) ≡ length xs };

    ghost in_order: { (xs : List Self) (i : ℕ) (d : Self) → i < length xs → get_or (values xs) i 0 ≡ value (get_or xs i d) };
}

impl Number for u16 {
    ghost value = { λ x. x };

    ghost values = { λ xs. xs };

    ghost as_long = { same_length };

    ghost in_order = { same_read };

    fn wide(self) -> u32 {
        u32::from(self)
    }
}

impl Number for u32 {
    ghost value = { λ x. x };

    ghost values = { λ xs. xs };

    ghost as_long = { same_length };

    ghost in_order = { same_read };

    fn wide(self) -> u32 {
        self
    }
}

// Numbers, each behind a space.
pub fn put_spaced<T: Number>(xs: &[T], out: &mut [u8], at: usize) -> usize
    requires { at + length (spaced (T.values xs.now)) ≤ length out.old }
    ensures { Puts (spaced (T.values xs.now)) out.old at result out.new }
{
    let mut end = at;
    for x in xs {
        end = put_next(x.wide(), out, end);
    }
    end
}

// The line feed that ends a line.
fn put_feed(out: &mut [u8], at: usize) -> usize
    requires { at + 1 ≤ length out.old }
    ensures { Puts (line_feed ∷ []) out.old at result out.new }
{
    put(b"\n", out, at)
}

// A line: bytes, numbers, each behind a space, and a line feed.
pub fn put_line<T: Number>(first: &[u8], xs: &[T], out: &mut [u8], at: usize) -> usize
    requires { at + length (line first.now (T.values xs.now)) ≤ length out.old }
    ensures { Puts (line first.now (T.values xs.now)) out.old at result out.new }
{
    let begun = put(first, out, at);
    let listed = put_spaced(xs, out, begun);
    put_feed(out, listed)
}
