// What a description gives: the types of the answer, room in its six outputs, and what is written to them.
#![tactic(auto)]

pub mod giving; // room, and what is written to the outputs

// The counts of numbers or bytes written, outputs in the order named; or a refusal: the place of 14, or
// what the first output that is too short needs. Numbers and places: specs/Calls.antt.
#[derive(Clone, Copy)]
pub enum Described {
    Counts(usize, usize, usize, usize, usize, usize),
    Faulty(usize),
    Room(usize),
}

// A length of each output, outputs in the order named.
#[derive(Clone, Copy)]
pub struct Sizes {
    pub rows: usize,
    pub places: usize,
    pub names: usize,
    pub spots: usize,
    pub literals: usize,
    pub bytes: usize,
}
