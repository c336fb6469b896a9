// The tree rule, tested row by row, on numbers in whatever form they stand in memory.
#![tactic(auto)]

mod checking;
mod numbers;

pub use checking::{Used, bad_row};
pub use numbers::Numbers;
