// Two linked trees on numbers in arrays, each a row array with its layout applied (the crate `work_trees`), its
// layout a byte for each row: freeing one side while the other stands. No bytes of a record, no refusals.
#![tactic(auto)]

mod freeing_sides;
pub mod sides;

pub use freeing_sides::{first_turn, free_side, take_turn};
pub use sides::OneSide;
