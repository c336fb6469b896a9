// Arrays by leaf, filled from orders and links. An array by leaf has leaf a, 1 to n, at place a - 1. Of each array of
// 512 entries the first n count; what stands beyond them is neither read nor changed.
#![tactic(auto)]

mod leaves;

pub use leaves::{entries_along, entry_of, far_ends, near_ends, places};
