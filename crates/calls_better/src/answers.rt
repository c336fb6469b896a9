// What comparing two orders answers, for who can't be handed a part of a lent order.

// The first or the second order.
#[derive(Clone, Copy, Debug, PartialEq, Eq)]
pub enum Which {
    First,
    Second,
}

// The order that crosses less, and how many of its entries count: n.
#[derive(Clone, Copy, Debug, PartialEq, Eq)]
pub struct Better {
    pub which: Which,
    pub length: u16,
}
