// The calls on merge tables with signs: a table read into rows, and a side of a record written as a table.
#![tactic(auto)]

mod reading;
mod writing;

pub use reading::merge_read;
pub use writing::merge_write;
