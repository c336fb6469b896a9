// Unpacking: a record's parts put into buffers, for any bytes.
#![tactic(auto)]

pub mod unpacking;

pub use unpacking::unpack;
