// Pinning one row of any bytes, or unpinning it.
#![tactic(auto)]

mod pinning;

pub use pinning::pin;
