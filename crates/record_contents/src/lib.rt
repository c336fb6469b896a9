// The tests of what is in a record: rows by the tree rule, links one to one, layout bytes.
#![tactic(auto)]

mod links;
mod testing;

pub use links::one_to_one;
pub use testing::{contents, is_layout, test_parts};
