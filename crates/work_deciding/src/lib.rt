// One row decided while a side is freed, on numbers in memory: the row array and the layout of the crate `work_trees`.
#![tactic(auto)]

mod deciding;

pub use deciding::{decide, own_crossings};
