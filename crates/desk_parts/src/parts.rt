// Packing and unpacking: a record's parts as words, three lists and two layouts. None is answered for a line that is no
// call.
use desk_words::bytes::bytes;
use desk_words::lists::list;
use desk_words::numbers::{number8, number16};
use desk_words::room;
use desk_words::spelling::{answer, done, next_bytes, next_integers};
use desk_words::words::word;
use std::io;
use std::io::Stdout;
use tangle::answers::{TangleRefusal, TangleUnpack};

// NUMBER HOLD N
fn heading(stdout: Stdout, answered: TangleUnpack) -> io::Result<()> {
    answer(
        stdout,
        answered.refusal,
        answered.row,
        &[answered.hold, answered.n],
    )
}

// unpack RECORD LEFT RIGHT LINKS LAYOUT LAYOUT -> NUMBER HOLD N LEFT RIGHT LINKS LAYOUT LAYOUT. The left list goes into
// xs: a program's stack has room for few lists of its own.
pub fn unpack(stdout: Stdout, line: &[u8], s: &[u8], xs: &mut [u16]) -> Option<io::Result<()>> {
    // The buffers come first: behind a word that is read the compiler zeroes them twice.
    let mut right = room::for_list();
    let mut links = room::for_list();
    let mut leftlay = room::for_bytes();
    let mut rightlay = room::for_bytes();
    let a = list(word(line, 2), xs)?;
    let b = list(word(line, 3), &mut right)?;
    let c = list(word(line, 4), &mut links)?;
    let d = bytes(word(line, 5), &mut leftlay)?;
    let e = bytes(word(line, 6), &mut rightlay)?;
    Some(unpack_into(
        stdout,
        s,
        &mut xs[..a],
        &mut right[..b],
        &mut links[..c],
        &mut leftlay[..d],
        &mut rightlay[..e],
    ))
}

fn unpack_into(
    stdout: Stdout,
    s: &[u8],
    left: &mut [u16],
    right: &mut [u16],
    links: &mut [u16],
    leftlay: &mut [u8],
    rightlay: &mut [u8],
) -> io::Result<()> {
    heading(
        stdout,
        TangleUnpack::from(record_unpacking::unpack(s, left, right, links, leftlay, rightlay)),
    )?;
    next_integers(stdout, left)?;
    next_integers(stdout, right)?;
    next_integers(stdout, links)?;
    next_bytes(stdout, leftlay)?;
    next_bytes(stdout, rightlay)?;
    printing::end(stdout)
}

// pack HOLD N LEFT RIGHT LINKS LAYOUT LAYOUT OUT -> NUMBER OUT. The lists stand one behind the other in xs.
pub fn pack(stdout: Stdout, line: &[u8], out: &mut [u8], xs: &mut [u16]) -> Option<io::Result<()>> {
    let hold = number8(word(line, 1))?;
    let n = number16(word(line, 2))?;
    let a = list(word(line, 3), xs)?;
    let b = list(word(line, 4), &mut xs[a..])?;
    let d = a + b;
    let c = list(word(line, 5), &mut xs[d..])?;
    let e = d + c;
    let lists = &xs[..];
    pack_layouts(
        stdout,
        line,
        hold,
        n,
        &lists[..a],
        &lists[a..d],
        &lists[d..e],
        out,
    )
}

// Inlined for the stack's sake: as a function of its own it puts its layouts on top of the lists in `make`.
#[inline(always)]
fn pack_layouts(
    stdout: Stdout,
    line: &[u8],
    hold: u8,
    n: u16,
    left: &[u16],
    right: &[u16],
    links: &[u16],
    out: &mut [u8],
) -> Option<io::Result<()>> {
    let mut leftlay = room::for_bytes();
    let a = bytes(word(line, 6), &mut leftlay)?;
    let mut rightlay = room::for_bytes();
    let b = bytes(word(line, 7), &mut rightlay)?;
    let packed = TangleRefusal::from(record_packing::pack(
        hold,
        n,
        left,
        right,
        links,
        &leftlay[..a],
        &rightlay[..b],
        out,
    ));
    Some(done(stdout, packed.refusal, packed.row, out))
}
