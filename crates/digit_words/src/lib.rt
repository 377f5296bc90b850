// Unsigned fields of up to 8 digits, each read as one word: which they are, and two of them compared at once.
#![tactic(auto)]

pub mod rows; // which rows are read so, and what a relation asks of two words

// What a relation asks of two words: whether they are equal; or else whether the first is less than the second, or the second less
// than the first; and whether the answer is turned.
#[derive(Debug, Clone, Copy, PartialEq, Eq)]
pub struct Asked {
    pub equal: bool,
    pub second: bool,
    pub turned: bool,
}
