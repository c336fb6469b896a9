// Leaf orders that are proposed for a side of an accepted record: whether one is an order of that side, and the layout
// that it shows.
#![tactic(auto)]

mod proposed;

pub use proposed::{is_order, read_order};
