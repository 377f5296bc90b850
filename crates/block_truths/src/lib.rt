// A block of records, and the truths that a test or a comparison tells of them.
#![tactic(auto)]

pub mod truths; // the truths that a relation tells

// Records of one size, one after another in a file: where the first starts, and how many there are.
#[derive(Clone, Copy)]
pub struct Block {
    pub from: usize,
    pub size: usize,
    pub n: usize,
}

// Where a field ends in its record, and its bytes.
#[derive(Clone, Copy)]
pub struct Extent {
    pub end: usize,
    pub width: usize,
}

// The truths of a test.
#[derive(Clone, Copy)]
pub struct Bits {
    pub holds: u8,
    pub fails: u8,
}

// The truths of a comparison: where the first word is less, the same, or more.
#[derive(Clone, Copy)]
pub struct OrderBits {
    pub less: u8,
    pub same: u8,
    pub more: u8,
}
