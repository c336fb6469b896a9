// Taking in an order, typed: the layout bytes that give it, its count, and whether that is the least. docs/DESK.md has
// the language of the desk, docs/ORDERS.md what the answer says.
#![tactic(auto)]

mod taking_in;

pub use taking_in::take_in;
