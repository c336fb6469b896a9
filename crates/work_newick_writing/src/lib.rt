// Newick text written for a tree in memory, a row array (`work_trees`): how many bytes it takes, noted row by row, and
// the text itself, in memory that the caller lends.
#![tactic(auto)]

mod counting;
mod writing;

pub use counting::{TreeText, count_text};
