// Newick text, typed: a text read into rows, and a side of a record written as text. docs/DESK.md has the language of
// the desk, docs/NEWICK.md that of the texts.
#![tactic(auto)]

mod texts;

pub use texts::{newick_read, newick_write};
