// The number that a word of decimal digits says.
ghost use Rattle.std.specs.Prelude.{◌≡◌};
ghost use Rattle.desk_words.specs.Numbers.{digit_of, number_in, within};

// A decimal digit's value; none for any other byte.
fn digit(x: u8) -> Option<u8>
    ensures { result ≡ within 9 (digit_of x) }
{
    match x {
        b'0'..=b'9' => Some(x - b'0'),
        _ => None,
    }
}

// The number that a word of one or more digits says, if it is at most `most`.
pub fn number(word: &[u8], most: u32) -> Option<u32>
    ensures { result ≡ number_in most word.now }
{
    if word.is_empty() {
        return None;
    }
    let mut x = 0;
    for byte in word {
        let d = digit(*byte)?;
        x = 10 * x + u64::from(d);
        if u64::from(most) < x {
            return None;
        }
    }
    Some(x as u32)
}

// The number of 16 bits that a word says.
pub fn number16(word: &[u8]) -> Option<u16>
    ensures { result ≡ number_in 65535 word.now }
{
    let x = number(word, 65535)?;
    Some(x as u16)
}

// The number of 8 bits that a word says.
pub fn number8(word: &[u8]) -> Option<u8>
    ensures { result ≡ number_in 255 word.now }
{
    let x = number(word, 255)?;
    Some(x as u8)
}
