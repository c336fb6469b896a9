// The sheet of one record: reads it from standard input, asks for the sheet's eight lines in their order, and writes
// each to standard output as it comes. What the lines say, and that they are the sheet, is proved (`calls_sheet`,
// `promises`).
#![tactic(auto)]

use std::io;
use std::io::Stdout;

// Writes line k of the sheet. A line has at most 1,942 bytes.
fn print_line(stdout: Stdout, s: &mut [u8], k: usize) -> io::Result<()> {
    let mut out = [0u8; 1942];
    let n = calls_sheet::line(s, k, &mut out);
    stdout.write_all(&out[..n])
}

// Writes the sheet of any bytes, up to the first line that can't be written.
fn print(stdout: Stdout, s: &mut [u8]) -> io::Result<()> {
    for k in 1..9 {
        print_line(stdout, s, k)?;
    }
    Ok(())
}

// Tells on standard error what could not be done. Where that can't be written either, nobody is told.
fn tell(rt: HostRuntime, line: &[u8]) {
    let _told = rt.stderr().write_all(line).is_ok();
}

// One byte more than the longest record has, so that longer input is refused for its length. No error is returned, since
// the code that shows one takes more than the rest of the program (host/measure/sheet.sh).
fn main(rt: HostRuntime) {
    let mut bytes = [0u8; 6143];
    let Ok(n) = input::read_whole(&mut rt.stdin(), &mut bytes) else {
        tell(rt, b"sheet: standard input can't be read\n");
        return;
    };
    if print(rt.stdout(), &mut bytes[..n]).is_err() {
        tell(rt, b"sheet: standard output can't be written\n");
    }
}
