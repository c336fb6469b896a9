// An accepted record taken apart into arrays, and put back. The calls stand on this; the work on the arrays is the
// crates' below.
#![tactic(auto)]

mod places;
mod putting_back;
mod rows;
mod sides;
mod taking_apart;

pub use places::{layout_at, rows_at};
pub use putting_back::put_back;
pub use rows::{is_row, put_row_byte, row_byte};
pub use sides::{SaysSide, is_held, side_of};
pub use taking_apart::{fill_layout, fill_side, side_order, take_layouts, take_orders, take_trees};
