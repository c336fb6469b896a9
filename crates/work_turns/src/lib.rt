// Taking turns: the sides of two linked trees in memory (the crate `work_linked_trees`) are freed in turn. No bytes
// of a record, no refusals.
#![tactic(auto)]

mod running;

pub use running::{Taken, take_turns};
