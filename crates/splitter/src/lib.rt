// How a condition text falls into words.
#![tactic(auto)]

mod runs; // how far a word goes
pub mod splits; // the next word

// A word of a text: the place of its first byte and the place after its last.
#[derive(Debug, Clone, Copy, PartialEq, Eq)]
pub struct Span {
    pub at: usize,
    pub end: usize,
}
