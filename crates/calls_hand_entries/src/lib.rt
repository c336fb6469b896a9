// Hand lists on any bytes, over entries of a side and a row. What such a list does is `calls_hands`'s own statement.
#![tactic(auto)]

pub mod hand_entries;

pub use hand_entries::hands_named;
