// Taking in an order made elsewhere, for a side of any bytes: the layout bytes that give it, its count, and whether it
// is the least.
#![tactic(auto)]

pub mod answers;
mod taking_in;

pub use taking_in::take_in;
