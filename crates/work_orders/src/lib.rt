// Two leaf orders and the links between them, on numbers in arrays: where the links end, how many cross, and how far
// apart their ends stand. Of each array of 512 entries the first n count.
#![tactic(auto)]

mod between;
mod ends;

pub use between::{crossings_paired, crossings_seen, displacement_of};
pub use ends::far_of;
