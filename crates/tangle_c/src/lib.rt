// The calls for C (host/viewer/tangle.h), all twenty, by subject: each export passes what C hands over on to the function
// of the same name of the library `tangle`, promises what that one promises, and answers what it answers. A crate is a
// library or a static library, not both, so these stand apart.
#![tactic(auto)]

mod changing;
mod packed;
mod proposing;
mod showing;
mod tables;
mod texts;
