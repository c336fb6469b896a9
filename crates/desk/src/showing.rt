// The calls that change no record: check, order, count, pairs, squared_entanglement, thousandths, better and its check.
ghost use Rattle.std.specs.Prelude.{MatchOption, cond, length, ◌≡◌};
ghost use Rattle.std.specs.Float.{binary64};
ghost use Rattle.std.specs.Float.Ieee.{eq, to_bits};
ghost use Rattle.desk.specs.Orders.{orders_in};

use desk_words::lists::list as list_in;
use desk_words::numbers::number16;
use desk_words::spelling::{answer, integers, next_bits, next_integers};
use desk_words::words::word;
use std::io;
use std::io::Stdout;
use tangle::answers::{TangleCount, TangleRefusal, TangleSquaredEntanglement, TangleThousandths};

// NUMBER, which for 7 and 8 is followed by the row, here and in every answer.
fn only(stdout: Stdout, answered: TangleRefusal) -> io::Result<()> {
    answer(stdout, answered.refusal, answered.row, &[])?;
    printing::end(stdout)
}

// check RECORD -> NUMBER
pub fn check(stdout: Stdout, s: &[u8]) -> io::Result<()> {
    only(stdout, TangleRefusal::from(record::check(s)))
}

// NUMBER OUT
fn ordered(stdout: Stdout, s: &[u8], side: u16, xs: &mut [u16]) -> io::Result<()> {
    let answered = TangleRefusal::from(calls_show::order(s, side, xs));
    answer(stdout, answered.refusal, answered.row, &[])?;
    next_integers(stdout, xs)?;
    printing::end(stdout)
}

// order RECORD SIDE OUT -> NUMBER OUT; none for a line that is no call.
pub fn order(stdout: Stdout, line: &[u8], s: &[u8], xs: &mut [u16]) -> Option<io::Result<()>> {
    let side = number16(word(line, 2))?;
    let n = list_in(word(line, 3), xs)?;
    Some(ordered(stdout, s, side, &mut xs[..n]))
}

// NUMBER COUNT
fn counted(stdout: Stdout, answered: TangleCount) -> io::Result<()> {
    answer(stdout, answered.refusal, answered.row, &[answered.count])?;
    printing::end(stdout)
}

// count RECORD -> NUMBER COUNT, by seen places
pub fn count(stdout: Stdout, s: &[u8]) -> io::Result<()> {
    counted(stdout, TangleCount::from(calls_show::count(s)))
}

// pairs RECORD -> NUMBER COUNT, pair by pair
pub fn pairs(stdout: Stdout, s: &[u8]) -> io::Result<()> {
    counted(stdout, TangleCount::from(calls_show::pairs(s)))
}

// A ratio's bits; 0 for what is no number and so not equal to itself, which no ratio is.
fn bits(x: f64) -> u64
    ensures { result ≡ cond (eq x x) (to_bits binary64 x) 0 }
{
    if x == x {
        return f64::to_bits(x);
    }
    0
}

// D W none, written at once, a space before each
fn no_ratio(stdout: Stdout, displacement: u32, worst: u32) -> io::Result<()> {
    let mut text = [0u8; 28];
    let first = work_text::put_next(displacement, &mut text, 0);
    let second = work_text::put_next(worst, &mut text, first);
    let end = work_text::put(b" none\n", &mut text, second);
    printing::text(stdout, &text[..end])
}

// NUMBER D W RATIO, or NUMBER D W none
fn squared(stdout: Stdout, answered: TangleSquaredEntanglement) -> io::Result<()> {
    if answered.has_ratio == 0 {
        answer(stdout, answered.refusal, answered.row, &[])?;
        return no_ratio(stdout, answered.displacement, answered.worst);
    }
    let numbers = [answered.displacement, answered.worst];
    answer(stdout, answered.refusal, answered.row, &numbers)?;
    next_bits(stdout, bits(answered.ratio))?;
    printing::end(stdout)
}

// squared_entanglement RECORD -> NUMBER D W RATIO
pub fn squared_entanglement(stdout: Stdout, s: &[u8]) -> io::Result<()> {
    squared(
        stdout,
        TangleSquaredEntanglement::from(calls_show::squared_entanglement(s)),
    )
}

// NUMBER K, or NUMBER none
fn in_thousandths(stdout: Stdout, answered: TangleThousandths) -> io::Result<()> {
    if answered.has_ratio == 0 {
        answer(stdout, answered.refusal, answered.row, &[])?;
        return printing::text(stdout, b" none\n");
    }
    answer(
        stdout,
        answered.refusal,
        answered.row,
        &[answered.thousandths],
    )?;
    printing::end(stdout)
}

// thousandths RECORD -> NUMBER K
pub fn thousandths(stdout: Stdout, s: &[u8]) -> io::Result<()> {
    in_thousandths(stdout, TangleThousandths::from(calls_show::thousandths(s)))
}

// What a line says that compares two orders: the side, and the orders, which are put one behind the other into xs; none
// for a line that is no call.
fn orders<'a>(line: &[u8], xs: &'a mut [u16]) -> Option<(u16, &'a [u16], &'a [u16])>
    ensures { MatchOption
        result
        (orders_in line.now (length xs.old) ≡ None)
        (λ o. orders_in line.now (length xs.old) ≡ Some (record { side = o.0; first = o.1.now; second = o.2.now })) }
{
    let side = number16(word(line, 2))?;
    let a = list_in(word(line, 3), xs)?;
    let b = list_in(word(line, 4), &mut xs[a..])?;
    let (first, rest) = xs.split_at(a);
    Some((side, first, &rest[..b]))
}

// PART
fn told(stdout: Stdout, part: &[u16]) -> io::Result<()> {
    integers(stdout, part)?;
    printing::end(stdout)
}

// better RECORD SIDE FIRST SECOND -> PART
pub fn better(stdout: Stdout, line: &[u8], s: &[u8], xs: &mut [u16]) -> Option<io::Result<()>> {
    let (side, first, second) = orders(line, xs)?;
    Some(told(stdout, calls_better::better(s, side, first, second)))
}

// better_check RECORD SIDE FIRST SECOND -> NUMBER
pub fn better_check(
    stdout: Stdout,
    line: &[u8],
    s: &[u8],
    xs: &mut [u16],
) -> Option<io::Result<()>> {
    let (side, first, second) = orders(line, xs)?;
    let answered = TangleRefusal::from(calls_better::better_check(s, side, first, second));
    Some(only(stdout, answered))
}
