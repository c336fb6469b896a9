// How an answer is put together: numbers, bytes and lists, a space before each but the first.
ghost use Rattle.std.specs.Prelude.{◌≡◌, ◌+◌, ◌*◌, ◌≤◌, length, take, drop};
ghost use Rattle.desk_words.specs.Bytes.{hex_digit, spelling};

use std::fmt::Display;
use std::io;
use std::io::Stdout;

// The answer to a line that is no call.
pub fn no_call(stdout: Stdout) -> io::Result<()> {
    printing::text(stdout, b"?\n")
}

// The digit of a number below 16.
fn hex_digit(x: u8) -> u8
    requires { x ≤ 15 }
    ensures { result ≡ hex_digit x }
{
    if x < 10 { 48 + x } else { 87 + x }
}

// The digits of the first n bytes of s, 32 at most.
fn spelled(s: &[u8], n: usize) -> [u8; 64]
    requires n_bound { n ≤ 32 }
    requires n_in_bounds { n ≤ length s.now }
    ensures { take (2 * n) result ≡ spelling (take n s.now) }
{
    let mut text = [0u8; 64];
    for k in 0..n {
        let x = s[k];
        text[2 * k] = hex_digit(x / 16);
        text[2 * k + 1] = hex_digit(x % 16);
    }
    text
}

// The digits of s, 32 bytes at most.
fn digits(stdout: Stdout, s: &[u8]) -> io::Result<()> {
    let n = s.len();
    if n <= 32 {
        let text = spelled(s, n);
        let digits = 2 * n;
        printing::text(stdout, &text[..digits])?;
    }
    Ok(())
}

// A space and bytes, or a dash for none.
pub fn next_bytes(stdout: Stdout, s: &[u8]) -> io::Result<()> {
    printing::byte(stdout, b' ')?;
    if s.is_empty() {
        return printing::byte(stdout, b'-');
    }
    for part in s.chunks(32) {
        digits(stdout, part)?;
    }
    Ok(())
}

// What a call answers in numbers: its refusal's, and the row if it isn't 0; then the others.
pub fn answer(stdout: Stdout, refusal: u32, row: u32, others: &[u32]) -> io::Result<()> {
    printing::integer(stdout, refusal)?;
    if row != 0 {
        printing::next_integer(stdout, row)?;
    }
    for x in others {
        printing::next_integer(stdout, *x)?;
    }
    Ok(())
}

// The same of a call that answers its refusal alone, then bytes and a line feed.
pub fn done(stdout: Stdout, refusal: u32, row: u32, s: &[u8]) -> io::Result<()> {
    answer(stdout, refusal, row, &[])?;
    next_bytes(stdout, s)?;
    printing::end(stdout)
}

// Numbers with commas between, or a dash for none.
pub fn integers<T: Copy + Into<i64>>(stdout: Stdout, xs: &[T]) -> io::Result<()> {
    let Some((first, rest)) = xs.split_first() else {
        return printing::byte(stdout, b'-');
    };
    printing::integer(stdout, *first)?;
    for x in rest {
        printing::byte(stdout, b',')?;
        printing::integer(stdout, *x)?;
    }
    Ok(())
}

// A space and such a list.
pub fn next_integers<T: Copy + Into<i64>>(stdout: Stdout, xs: &[T]) -> io::Result<()> {
    printing::byte(stdout, b' ')?;
    integers(stdout, xs)
}

// The same of numbers of any size, or of any other values that std has a text for. The desk writes none by it. That the
// loop stands once, over a closure that writes an entry, was tried: it makes the desk larger.
pub fn list<T: Copy + Display>(stdout: Stdout, xs: &[T]) -> io::Result<()> {
    let Some((first, rest)) = xs.split_first() else {
        return printing::byte(stdout, b'-');
    };
    printing::number(stdout, *first)?;
    for x in rest {
        printing::byte(stdout, b',')?;
        printing::number(stdout, *x)?;
    }
    Ok(())
}

// A space and such a list.
pub fn next_list<T: Copy + Display>(stdout: Stdout, xs: &[T]) -> io::Result<()> {
    printing::byte(stdout, b' ')?;
    list(stdout, xs)
}

// A space and the 16 hexadecimal digits of a ratio's bits.
pub fn next_bits(stdout: Stdout, bits: u64) -> io::Result<()> {
    printing::byte(stdout, b' ')?;
    digits(stdout, &bits.to_be_bytes())
}
