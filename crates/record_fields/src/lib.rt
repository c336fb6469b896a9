// The record's format: the bytes that are the device's whole state, the hold mark among them. What number each refusal
// has, where each part lies, and the copies of parts into arrays and back.
#![tactic(auto)]

pub mod copying;
pub mod fields;
mod filling;
pub mod hold;
pub mod numbers;
pub mod refusal;

pub use filling::{fill_links, fill_rows};
