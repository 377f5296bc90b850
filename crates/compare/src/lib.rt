// Comparisons and tests of plain bytes and numbers.
#![tactic(auto)]

pub mod classes; // class tests
pub mod orders; // what relation and sign words accept
pub mod switches; // switches

// What a numeric field holds: whether its content is valid, its sign and its digits.
// No Option: `number_of` of specs/Compared.antt has the sign and the digits of content that is not valid too.
#[derive(Debug, Clone, Copy, PartialEq, Eq)]
pub struct Number {
    pub valid: bool,
    pub minus: bool,
    pub digits: u64,
}
