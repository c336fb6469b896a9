// The bytes that a word of hexadecimal digits says.
ghost use Rattle.std.specs.Prelude.{IfSome, length, ◌≡◌, ◌≤◌};
ghost use Rattle.desk_words.specs.Bytes.{hex_of, byte_in, bytes_in, pairs_of};
ghost use Rattle.desk_words.specs.Numbers.{within};
ghost use Rattle.desk_words.specs.Puts.{Puts};

use crate::words::is_dash;

// A hexadecimal digit's value, 0 to 9 or a to f; none for any other byte.
fn hex(x: u8) -> Option<u8>
    ensures { result ≡ within 15 (hex_of x) }
{
    match x {
        b'0'..=b'9' => Some(x - b'0'),
        b'a'..=b'f' => Some(x - b'a' + 10),
        _ => None,
    }
}

// The byte that two hexadecimal digits say.
fn pair(high: u8, low: u8) -> Option<u8>
    ensures { result ≡ byte_in high low }
{
    let a = hex(high)?;
    let b = hex(low)?;
    Some(16 * a + b)
}

// How many bytes a number of digits says, two for each; none for no digit or an odd number.
fn pairs(digits: usize) -> Option<usize>
    ensures { result ≡ pairs_of digits }
{
    if digits == 0 || digits % 2 == 1 {
        return None;
    }
    Some(digits / 2)
}

// Puts the bytes that a word says into the first places of out, and answers how many; none where it says no bytes or
// there is no room.
pub fn bytes(word: &[u8], out: &mut [u8]) -> Option<usize>
    ensures says { Puts (bytes_in word.now) out.old result out.new }
    ensures fits { IfSome result (λ n. n ≤ length out.old) }
{
    if is_dash(word) {
        return Some(0);
    }
    let n = pairs(word.len())?;
    if out.len() < n {
        return None;
    }
    for i in 0..n {
        out[i] = pair(word[2 * i], word[2 * i + 1])?;
    }
    Some(n)
}
