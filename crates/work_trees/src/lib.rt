// Trees in memory. A tree's rows are a row array, 1023 numbers of which the last is n (`specs/Rows.antt`); a
// layout is a byte for each row; an order is an array of 512 leaf numbers of which the first n count.
#![tactic(auto)]

mod leaves;
mod noting;
mod turning;

pub use leaves::{count_leaves, leaf_order, leaves_under};
pub use noting::note_places;
pub use turning::{exchange, flipped, is_turned, layout_order, may_change, with_pin};
