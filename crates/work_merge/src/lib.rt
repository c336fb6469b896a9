// Merge tables with signs: what an entry names and the entry for an object, the two tests of a table, and its rows
// written out. No record and no refusals.
#![tactic(auto)]

mod entries;
mod reading;

pub use entries::entry_for;
pub use reading::{any_names_none, any_twice, rows_out};
