// Places seen so far, as bits: whether one is, whether each before a place is, and how many past a place are.
#![tactic(auto)]

mod seen;

pub use seen::Seen;
