// Better of two proposed orders, on any bytes: as a part of the one that is better, or in numbers; and why there is
// none.
#![tactic(auto)]

pub mod answers;
mod comparing;

pub use comparing::{better, better_check, compare};
