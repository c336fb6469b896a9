// What taking in an order answers.

// The count with the order on that side, and whether no permitted choice on that side crosses less.
#[derive(Clone, Copy, Debug, PartialEq, Eq)]
pub struct Weight {
    pub count: u32,
    pub least: bool,
}
