// Text put into memory that the caller lends, from a place on: bytes, numbers in decimal digits, and lines of these.
#![tactic(auto)]

mod lines;
mod putting;

pub use lines::{Number, put_line, put_spaced};
pub use putting::{put, put_next, put_number};
