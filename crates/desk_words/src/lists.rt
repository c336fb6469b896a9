// What a word says part by part, with commas between: a list, hands, or the signed numbers of a merge table.
ghost use Rattle.std.specs.Prelude.{IfSome, List, Option, length, ℕ, ◌≡◌, ◌≤◌};
ghost use Rattle.std.specs.Fn.{FnReturnsAt};
ghost use Rattle.desk_words.specs.Lists.{entries_in, list_in, hand_said, hands_in};
ghost use Rattle.desk_words.specs.Tables.{table_in};
ghost use Rattle.desk_words.specs.Puts.{Puts};

use crate::numbers::number16;
use crate::tables::signed;
use crate::words::{cut, is_dash};

// Puts what the parts of a word say, each as `entry` reads it, into the first places of out, and answers how many; none
// where a part says nothing or there is no room.
fn entries<T: Copy, F: Fn(&[u8]) -> Option<T>>(
    word: &[u8],
    out: &mut [T],
    entry: F,
) -> Option<usize>
    requires { F.IsAlwaysCallable entry }
    ensures says { (said : List ℕ → Option T)
        → ((part : List ℕ) (r : Option T) → FnReturnsAt F.Fn entry part r → r ≡ said part)
        → Puts (entries_in said word.now) out.old result out.new }
    ensures fits { IfSome result (λ n. n ≤ length out.old) }
{
    if is_dash(word) {
        return Some(0);
    }
    let mut n = 0;
    let mut rest = Some(word);
    while let Some(text) = rest {
        if n == out.len() {
            return None;
        }
        let (part, behind) = cut(text, b',');
        out[n] = entry(part)?;
        n += 1;
        rest = behind;
    }
    Some(n)
}

// Puts the 16-bit numbers that a word says into the first places of out, and answers how many; none where it says no
// list or there is no room.
pub fn list(word: &[u8], out: &mut [u16]) -> Option<usize>
    ensures says { Puts (list_in word.now) out.old result out.new }
    ensures fits { IfSome result (λ n. n ≤ length out.old) }
{
    entries(word, out, number16)
}

// The hand that a word says, `side:row`, as one number.
fn hand(word: &[u8]) -> Option<u32>
    ensures { result ≡ hand_said word.now }
{
    let (side, behind) = cut(word, b':');
    let side = number16(side)?;
    let row = number16(behind?)?;
    Some(65536 * u32::from(side) + u32::from(row))
}

// Puts the hands that a word says into the first places of out, and answers how many; none where it says no hands or
// there is no room.
pub fn hands(word: &[u8], out: &mut [u32]) -> Option<usize>
    ensures says { Puts (hands_in word.now) out.old result out.new }
    ensures fits { IfSome result (λ n. n ≤ length out.old) }
{
    entries(word, out, hand)
}

// Puts the signed numbers that a word says into the first places of out, and answers how many; none where it says no
// such numbers or there is no room.
pub fn table(word: &[u8], out: &mut [i32]) -> Option<usize>
    ensures says { Puts (table_in word.now) out.old result out.new }
    ensures fits { IfSome result (λ n. n ≤ length out.old) }
{
    entries(word, out, signed)
}
