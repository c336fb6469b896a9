// The calls on any bytes that only show a record: order, count, pairs, squared entanglement,
// thousandths.
#![tactic(auto)]

pub mod answers;
mod counting;
mod showing;

pub use showing::{count, order, pairs, squared_entanglement, thousandths};
