// Packing and unpacking, typed: a record's parts as words of a line, and the answers. docs/DESK.md has the language.
#![tactic(auto)]

mod parts;

pub use parts::{pack, unpack};
