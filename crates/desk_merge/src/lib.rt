// Merge tables with signs, typed: a table read into rows, and a side of a record written as a table. docs/DESK.md has
// the language of the desk, docs/MERGE.md that of the tables.
#![tactic(auto)]

mod tables;

pub use tables::{merge_read, merge_write};
