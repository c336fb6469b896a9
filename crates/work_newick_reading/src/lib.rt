// Newick text read into rows. The text is read once, from its first byte on, and what was read is noted (`Notes`), since
// it shows only at the end how many leaves there are; then the leaves are tested, and the rows written.
#![tactic(auto)]

mod digits;
mod notes;
mod once;
mod readers;
mod whole;

pub use notes::Notes;
pub use whole::read_text;
