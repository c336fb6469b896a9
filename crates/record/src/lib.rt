// A record as a whole: whether any bytes are one, or why not; reading its heading; the hold.
#![tactic(auto)]

pub mod heading;
mod hold;
pub mod reading;

pub use heading::Header;
pub use hold::set_hold;
pub use reading::{check, read};
