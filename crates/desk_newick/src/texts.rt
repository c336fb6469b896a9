// The calls on Newick text. A text or a record is the bytes that word 1 of the line says; an answer has the numbers,
// then the buffer as it is afterwards. None is answered for a line that is no call.
use desk_words::bytes::bytes;
use desk_words::lists::list;
use desk_words::numbers::number16;
use desk_words::room;
use desk_words::spelling::{answer, next_bytes, next_integers};
use desk_words::words::word;
use std::io;
use std::io::Stdout;
use tangle::answers::{TangleNewickRead, TangleNewickWrite};

// NUMBER N OUT
fn read(stdout: Stdout, text: &[u8], out: &mut [u16]) -> io::Result<()> {
    let answered = TangleNewickRead::from(calls_newick::newick_read(text, out));
    answer(stdout, answered.refusal, answered.row, &[answered.n])?;
    next_integers(stdout, out)?;
    printing::end(stdout)
}

// newick_read TEXT OUT -> NUMBER N OUT
pub fn newick_read(
    stdout: Stdout,
    line: &[u8],
    text: &[u8],
    xs: &mut [u16],
) -> Option<io::Result<()>> {
    let n = list(word(line, 2), xs)?;
    Some(read(stdout, text, &mut xs[..n]))
}

// NUMBER LENGTH OUT
fn written(stdout: Stdout, s: &[u8], side: u16, out: &mut [u8]) -> io::Result<()> {
    let answered = TangleNewickWrite::from(calls_newick::newick_write(s, side, out));
    answer(stdout, answered.refusal, answered.row, &[answered.length])?;
    next_bytes(stdout, out)?;
    printing::end(stdout)
}

// newick_write RECORD SIDE OUT -> NUMBER LENGTH OUT
pub fn newick_write(stdout: Stdout, line: &[u8], s: &[u8]) -> Option<io::Result<()>> {
    let side = number16(word(line, 2))?;
    let mut out = room::for_bytes();
    let n = bytes(word(line, 3), &mut out)?;
    Some(written(stdout, s, side, &mut out[..n]))
}
