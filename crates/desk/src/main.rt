// The desk: any call, typed as a line. Reads lines from standard input, up to 1,048,576 bytes of them, and answers one
// line for each; `?` to a line that is no call. docs/DESK.md has the language.
#![tactic(auto)]

mod calls;
mod changing;
mod showing;

ghost use Rattle.std.specs.Prelude.{IfSome, length, ◌≤◌};
ghost use Rattle.desk.specs.Calls.{lent_in};
ghost use Rattle.desk_words.specs.Puts.{Puts};

use calls::{Call, lent, named, words};
use desk_words::bytes::bytes;
use desk_words::room;
use desk_words::room::MOST;
use desk_words::spelling::no_call;
use desk_words::words::{count, word};
use std::io;
use std::io::Stdout;

// Makes a call that changes no bytes of those that it is lent; none for a line that is no call.
fn show(
    stdout: Stdout,
    call: Call,
    line: &[u8],
    s: &[u8],
    xs: &mut [u16],
) -> Option<io::Result<()>> {
    match call {
        Call::Check => Some(showing::check(stdout, s)),
        Call::Order => showing::order(stdout, line, s, xs),
        Call::Count => Some(showing::count(stdout, s)),
        Call::Pairs => Some(showing::pairs(stdout, s)),
        Call::SquaredEntanglement => Some(showing::squared_entanglement(stdout, s)),
        Call::Thousandths => Some(showing::thousandths(stdout, s)),
        Call::Better => showing::better(stdout, line, s, xs),
        Call::BetterCheck => showing::better_check(stdout, line, s, xs),
        Call::Unpack => desk_parts::unpack(stdout, line, s, xs),
        Call::NewickRead => desk_newick::newick_read(stdout, line, s, xs),
        Call::NewickWrite => desk_newick::newick_write(stdout, line, s),
        _ => None,
    }
}

// Makes any call, on the bytes that it is lent: its record, its text, or the place that it packs a record into; none
// for a line that is no call. Taking in changes none of them and stands here for the stack's sake: with it `show` is
// compiled as a function of its own, whose lists come on top of those here.
fn make(
    stdout: Stdout,
    call: Call,
    line: &[u8],
    s: &mut [u8],
    xs: &mut [u16],
) -> Option<io::Result<()>> {
    match call {
        Call::Free => changing::free(stdout, line, s),
        Call::Run => changing::run(stdout, line, s),
        Call::Hands => changing::hands(stdout, line, s),
        Call::Hold => changing::hold(stdout, line, s),
        Call::Pin => changing::pin(stdout, line, s),
        Call::Pack => desk_parts::pack(stdout, line, s, xs),
        Call::MergeRead => desk_merge::merge_read(stdout, line, xs),
        Call::MergeWrite => desk_merge::merge_write(stdout, line, s),
        Call::TakeIn => desk_take_in::take_in(stdout, line, s, xs),
        _ => show(stdout, call, line, s, xs),
    }
}

// Puts the bytes that a call is lent into s, and answers how many; none where its word says no bytes or there is no
// room.
fn lend(call: Call, line: &[u8], s: &mut [u8]) -> Option<usize>
    ensures says { Puts (lent_in call line.now) s.old result s.new }
    ensures fits { IfSome result (λ n. n ≤ length s.old) }
{
    match lent(call) {
        Some(k) => bytes(word(line, k), s),
        None => Some(0),
    }
}

// Makes the call that a line says; none for a line that is no call. The bytes that the call is lent go into s, its
// lists into xs.
fn call(stdout: Stdout, line: &[u8], s: &mut [u8], xs: &mut [u16]) -> Option<io::Result<()>> {
    let call = named(word(line, 0))?;
    if count(line) != words(call) {
        return None;
    }
    let n = lend(call, line, s)?;
    make(stdout, call, line, &mut s[..n], xs)
}

// Answers one line.
fn answer(stdout: Stdout, line: &[u8], s: &mut [u8], xs: &mut [u16]) -> io::Result<()> {
    match call(stdout, line, s, xs) {
        Some(answered) => answered,
        None => no_call(stdout),
    }
}

// Answers each line of the input. The last one needs no line feed, unless more input follows than is answered.
fn answer_all(stdout: Stdout, input: &[u8], s: &mut [u8], xs: &mut [u16]) -> io::Result<()> {
    let more = MOST < input.len();
    let most = input.len().min(MOST);
    for line in input[..most].split_inclusive(|byte| *byte == b'\n') {
        match line.strip_suffix(b"\n") {
            Some(line) => answer(stdout, line, s, xs)?,
            None if more => return Ok(()),
            None => answer(stdout, line, s, xs)?,
        }
    }
    Ok(())
}

// A line says fewer bytes than half its own.
fn main(rt: HostRuntime) -> io::Result<()> {
    let mut lines = room::for_input();
    let Ok(got) = input::read_whole(&mut rt.stdin(), &mut lines) else {
        return eprintln!(rt; "desk: standard input can't be read");
    };
    let mut s = room::for_bytes();
    let mut xs = room::for_list();
    answer_all(rt.stdout(), &lines[..got], &mut s, &mut xs)
}
