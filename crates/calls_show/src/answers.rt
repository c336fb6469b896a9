// What squared entanglement answers.

// D, W, and D divided by W.
#[derive(Clone, Copy, Debug, PartialEq)]
pub struct Measured {
    pub displacement: u32,
    pub worst: u32,
    pub ratio: f64,
}
