// The calls on Newick text: a text read into rows, and a side of a record written as text.
#![tactic(auto)]

mod reading;
mod writing;

pub use reading::newick_read;
pub use writing::newick_write;
