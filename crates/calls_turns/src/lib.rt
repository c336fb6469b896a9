// The calls on any bytes that turn branchings over to cross less: free and run.
#![tactic(auto)]

mod taking_turns;

pub use taking_turns::{free, run};
