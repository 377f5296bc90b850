// A condition text as tokens, literal rows and literal bytes.
#![tactic(auto)]

pub mod gathering; // the pieces of a text, one after the other
mod laying; // one piece added to what is gathered

// How many tokens, literals and literal bytes there are so far, and the place after their words.
#[derive(Debug, Clone, Copy, PartialEq, Eq)]
pub struct Gathered {
    pub tokens: usize,
    pub literals: usize,
    pub bytes: usize,
    pub past: usize,
}

// A refusal: its number, and its place in the text.
#[derive(Debug, Clone, Copy, PartialEq, Eq)]
pub struct Fault {
    pub number: u32,
    pub place: usize,
}
