// Counting on numbers in memory. An order lists the leaves by their places; arrays by leaf are those of the crate
// `work_places`. Of each array of 512 entries the first n count; what stands beyond them is neither read nor changed.
#![tactic(auto)]

mod counting;

pub use counting::{count_across, count_pairs, count_seen};
