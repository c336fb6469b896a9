// Hand lists on any bytes: over plain numbers, and over entries in any other form that says which hand each of them is.
#![tactic(auto)]

mod entries;
mod handing;

pub use entries::Entry;
pub use handing::{hands, test_hand, turn_each, turn_hand};
