// The sheet of a record, line by line, as text in memory that the caller lends.
#![tactic(auto)]

mod asking;
mod lines;
mod measures;
mod running;
mod showing;

pub use asking::line;
