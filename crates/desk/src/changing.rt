// The calls that may change a record: free, run, hands, hold and pin. Each answers its numbers, then the record's
// bytes. None is answered for a line that is no call.
use desk_words::lists::hands as hands_in;
use desk_words::numbers::{number, number8, number16};
use desk_words::room;
use desk_words::spelling::{answer, done, next_bytes};
use desk_words::words::word;
use std::io;
use std::io::Stdout;
use tangle::answers::{TangleFree, TangleRefusal, TangleRun};

// NUMBER BEFORE AFTER RECORD
fn freed(stdout: Stdout, answered: TangleFree, s: &[u8]) -> io::Result<()> {
    let numbers = [answered.before, answered.after];
    answer(stdout, answered.refusal, answered.row, &numbers)?;
    next_bytes(stdout, s)?;
    printing::end(stdout)
}

// free RECORD SIDE -> NUMBER BEFORE AFTER RECORD
pub fn free(stdout: Stdout, line: &[u8], s: &mut [u8]) -> Option<io::Result<()>> {
    let side = number16(word(line, 2))?;
    let answered = TangleFree::from(calls_turns::free(s, side));
    Some(freed(stdout, answered, s))
}

// NUMBER FIRST LAST TURNS SETTLED RECORD
fn ran(stdout: Stdout, answered: TangleRun, s: &[u8]) -> io::Result<()> {
    let numbers = [
        answered.first,
        answered.last,
        answered.turns,
        answered.settled,
    ];
    answer(stdout, answered.refusal, answered.row, &numbers)?;
    next_bytes(stdout, s)?;
    printing::end(stdout)
}

// run RECORD ALLOWANCE -> NUMBER FIRST LAST TURNS SETTLED RECORD
pub fn run(stdout: Stdout, line: &[u8], s: &mut [u8]) -> Option<io::Result<()>> {
    let allowance = number(word(line, 2), 0xffff_ffff)?;
    let answered = TangleRun::from(calls_turns::run(s, allowance));
    Some(ran(stdout, answered, s))
}

// hands RECORD HANDS -> NUMBER RECORD
pub fn hands(stdout: Stdout, line: &[u8], s: &mut [u8]) -> Option<io::Result<()>> {
    let mut list = room::for_hands();
    let n = hands_in(word(line, 2), &mut list)?;
    let answered = TangleRefusal::from(calls_hands::hands(s, &list[..n]));
    Some(done(stdout, answered.refusal, answered.row, s))
}

// hold RECORD LETTER -> NUMBER RECORD
pub fn hold(stdout: Stdout, line: &[u8], s: &mut [u8]) -> Option<io::Result<()>> {
    let letter = number8(word(line, 2))?;
    let answered = TangleRefusal::from(record::set_hold(s, letter));
    Some(done(stdout, answered.refusal, answered.row, s))
}

// pin RECORD SIDE ROW FLAG -> NUMBER RECORD
pub fn pin(stdout: Stdout, line: &[u8], s: &mut [u8]) -> Option<io::Result<()>> {
    let side = number16(word(line, 2))?;
    let row = number16(word(line, 3))?;
    let flag = number(word(line, 4), 1)?;
    let answered = TangleRefusal::from(calls_pins::pin(s, side, row, flag == 1));
    Some(done(stdout, answered.refusal, answered.row, s))
}
