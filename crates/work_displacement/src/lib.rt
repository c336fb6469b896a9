// How far apart the ends of links stand, on numbers in arrays by leaf (the crate `work_places`), and what that is in
// thousandths of the worst.
#![tactic(auto)]

mod displacement;
mod in_thousandths;

pub use displacement::{displaced, worst_value};
pub use in_thousandths::thousandths;
