// Orders and trees: the layout that an order shows, whether an order is compatible with a tree, and the layout with
// another one's pins.
#![tactic(auto)]

mod matching;
mod pins;

pub use matching::{match_layout, read_layout};
pub use pins::keep_pins;
