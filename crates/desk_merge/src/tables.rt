// The calls on merge tables. An answer has the refusal, then the buffer as it is afterwards. What a line says is taken
// apart whole before the call is made; none is answered for a line that is no call.
use desk_words::lists::{list, table};
use desk_words::numbers::number16;
use desk_words::room;
use desk_words::spelling::{answer, next_integers};
use desk_words::words::word;
use std::io;
use std::io::Stdout;
use tangle::answers::TangleRefusal;

// NUMBER OUT
fn read(stdout: Stdout, n: u16, rows: &[i32], out: &mut [u16]) -> io::Result<()> {
    let answered = TangleRefusal::from(calls_merge::merge_read(n, rows, out));
    answer(stdout, answered.refusal, answered.row, &[])?;
    next_integers(stdout, out)?;
    printing::end(stdout)
}

// merge_read N TABLE OUT -> NUMBER OUT
pub fn merge_read(stdout: Stdout, line: &[u8], xs: &mut [u16]) -> Option<io::Result<()>> {
    let n = number16(word(line, 1))?;
    let mut rows = room::for_table();
    let entries = table(word(line, 2), &mut rows)?;
    let places = list(word(line, 3), xs)?;
    Some(read(stdout, n, &rows[..entries], &mut xs[..places]))
}

// NUMBER OUT
fn written(stdout: Stdout, s: &[u8], side: u16, out: &mut [i32]) -> io::Result<()> {
    let answered = TangleRefusal::from(calls_merge::merge_write(s, side, out));
    answer(stdout, answered.refusal, answered.row, &[])?;
    next_integers(stdout, out)?;
    printing::end(stdout)
}

// merge_write RECORD SIDE OUT -> NUMBER OUT
pub fn merge_write(stdout: Stdout, line: &[u8], s: &[u8]) -> Option<io::Result<()>> {
    let side = number16(word(line, 2))?;
    let mut out = room::for_table();
    let places = table(word(line, 3), &mut out)?;
    Some(written(stdout, s, side, &mut out[..places]))
}
