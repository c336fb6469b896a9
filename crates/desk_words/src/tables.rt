// The signed 32-bit number that a word says, as the entries of a merge table are typed. A number is read in 64 bits, in
// which the least of 32 bits has its opposite.
ghost use Rattle.std.specs.Prelude.{◌≡◌};
ghost use Rattle.desk_words.specs.Tables.{signed_in};

use crate::numbers::number;

// The signed number that a word says.
pub(crate) fn signed(word: &[u8]) -> Option<i32>
    ensures { result ≡ signed_in word.now }
{
    match word.strip_prefix(b"-") {
        Some(digits) => {
            let x = number(digits, 2147483648)?;
            Some(-i64::from(x) as i32)
        }
        None => {
            let x = number(word, 2147483647)?;
            Some(x as i32)
        }
    }
}
