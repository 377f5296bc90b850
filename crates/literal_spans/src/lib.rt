// Literals as they stand in a text: where one ends.
#![tactic(auto)]

pub mod spans; // a literal after a blank
mod steps; // what has been read of a literal

// How many bytes may begin a literal, and what they are so far (specs/Steps.antt).
#[derive(Clone, Copy)]
pub struct Span {
    pub length: usize,
    pub state: u32,
}
