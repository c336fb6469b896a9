// The call that takes in an order. The record is the bytes that word 1 of the line says; the answer has the numbers,
// then the layout's buffer as it is afterwards.
use desk_words::bytes::bytes;
use desk_words::lists::list;
use desk_words::numbers::number16;
use desk_words::room;
use desk_words::spelling::{answer, next_bytes};
use desk_words::words::word;
use std::io;
use std::io::Stdout;
use tangle::answers::TangleTakeIn;

// NUMBER COUNT LEAST LAYOUT
fn taken(stdout: Stdout, s: &[u8], side: u16, xs: &[u16], out: &mut [u8]) -> io::Result<()> {
    let answered = TangleTakeIn::from(calls_take_in::take_in(s, side, xs, out));
    let numbers = [answered.count, answered.least];
    answer(stdout, answered.refusal, answered.row, &numbers)?;
    next_bytes(stdout, out)?;
    printing::end(stdout)
}

// take_in RECORD SIDE ORDER LAYOUT -> NUMBER COUNT LEAST LAYOUT; none for a line that is no call.
pub fn take_in(stdout: Stdout, line: &[u8], s: &[u8], xs: &mut [u16]) -> Option<io::Result<()>> {
    // The buffer comes first: behind a word that is read the compiler zeroes it twice.
    let mut out = room::for_bytes();
    let side = number16(word(line, 2))?;
    let n = list(word(line, 3), xs)?;
    let m = bytes(word(line, 4), &mut out)?;
    Some(taken(stdout, s, side, &xs[..n], &mut out[..m]))
}
