// A test of what `printing` and `desk_words` write of values of any type that std has a text for: numbers that are too
// wide for the desk's own, and text. `stdout` has what it is to write.
#![tactic(auto)]

use desk_words::spelling::{list, next_list};
use printing::{byte, end, next, number};
use std::io;
use std::io::Stdout;

// One value, and values behind a space.
fn values(stdout: Stdout) -> io::Result<()> {
    number(stdout, u64::MAX)?;
    next(stdout, i128::MIN)?;
    next(stdout, "text")?;
    next(stdout, 'c')?;
    end(stdout)
}

// Lists with none, one and more of them.
fn lists(stdout: Stdout) -> io::Result<()> {
    let none: [u64; 0] = [];
    list(stdout, &none)?;
    next_list(stdout, &none)?;
    next_list(stdout, &[u64::MAX])?;
    next_list(stdout, &[i64::MIN, -1, 0])?;
    byte(stdout, b' ')?;
    list(stdout, &["one", "two"])?;
    end(stdout)
}

fn print(stdout: Stdout) -> io::Result<()> {
    values(stdout)?;
    lists(stdout)
}

fn main(rt: HostRuntime) {
    // What could not be written is missed when the output is compared.
    let _printed = print(rt.stdout()).is_ok();
}
