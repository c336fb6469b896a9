// Zeros to put the input and what its words say into. A line of 1,048,576 bytes says fewer bytes, numbers and hands.
// Each is a function of its own: with the arrays written at their places, the check of `desk_merge` had not ended after
// five minutes, and takes one with these.

// The bytes of input that are answered.
pub const MOST: usize = 1048576;

// For the input: one byte more than is answered, so that it shows whether more follows.
pub fn for_input() -> [u8; 1048577] {
    [0; 1048577]
}

// For the bytes that a word says.
pub fn for_bytes() -> [u8; 524288] {
    [0; 524288]
}

// For the numbers of a list.
pub fn for_list() -> [u16; 524288] {
    [0; 524288]
}

// For the hands of a hand list.
pub fn for_hands() -> [u32; 262144] {
    [0; 262144]
}

// For the signed numbers of a list.
pub fn for_table() -> [i32; 524288] {
    [0; 524288]
}
