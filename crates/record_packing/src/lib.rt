// Packing: parts made a record, for any lists.
#![tactic(auto)]

pub mod packing;

pub use packing::pack;
