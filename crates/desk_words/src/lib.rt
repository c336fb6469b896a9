// What the words of the desk's lines say: numbers, bytes, lists, signed lists and hands; and how bytes and lists are
// written. No call of the firmware stands here. docs/DESK.md has the language.
#![tactic(auto)]

pub mod bytes;
pub mod lists;
pub mod numbers;
pub mod room;
pub mod spelling;
pub mod tables;
pub mod words;
