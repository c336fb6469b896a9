// Freeing a side of an accepted record, and taking turns in it: taken apart, worked on in arrays, put back once.
#![tactic(auto)]

mod working;

pub use working::{free_record, free_with, run_record};
