// Text on standard output, written at once, for the desk. Its numbers, `integer`, are the text that `work_text` puts,
// which is proved; what `number` writes of any value is std's text of it. Each function answers whether what it was to
// write could be written.
#![tactic(auto)]

ghost use Rattle.std.specs.Prelude.{◌≡◌, nat_abs};

use std::fmt::Display;
use std::io;
use std::io::{Stdout, Write};

// The bytes of s.
pub fn text(stdout: Stdout, s: &[u8]) -> io::Result<()> {
    stdout.write_all(s)
}

// One byte.
pub fn byte(stdout: Stdout, x: u8) -> io::Result<()> {
    stdout.write_all(&[x])
}

// A number of up to 64 bits in decimal digits.
fn wide_number(stdout: Stdout, x: u64) -> io::Result<()> {
    let mut digits = [0u8; 20];
    let n = work_text::put_number(x, &mut digits, 0);
    stdout.write_all(&digits[..n])
}

// How far a number is from 0.
fn size(x: i64) -> u64
    ensures { result ≡ nat_abs x }
{
    x.unsigned_abs()
}

// A number in decimal digits, behind a dash where it is below zero.
pub fn integer(stdout: Stdout, x: impl Into<i64> + Drop) -> io::Result<()> {
    let wide = x.into();
    if wide < 0 {
        byte(stdout, b'-')?;
    }
    wide_number(stdout, size(wide))
}

// A space, and such a number.
pub fn next_integer(stdout: Stdout, x: impl Into<i64> + Drop) -> io::Result<()> {
    byte(stdout, b' ')?;
    integer(stdout, x)
}

// A number of any size, or any other value that std has a text for. The desk writes none by it.
pub fn number(stdout: Stdout, x: impl Display + Drop) -> io::Result<()> {
    write!(&stdout, "{x}")
}

// A space, and such a value.
pub fn next(stdout: Stdout, x: impl Display + Drop) -> io::Result<()> {
    write!(&stdout, " {x}")
}

// A line feed.
pub fn end(stdout: Stdout) -> io::Result<()> {
    stdout.write_all(b"\n")
}
