// What the words of a condition mean.
#![tactic(auto)]

mod meanings; // what a word means
pub mod pieces; // a word and the words that join it
mod vocables; // words that mean something by themselves

use content::Row;

// What a word means: a token that nothing joins, an item, a literal by its row at offset 0, GREATER or
// LESS by their tokens without and with OR EQUAL, or EQUAL.
#[derive(Clone, Copy)]
pub enum Sense {
    Token(u32),
    Item(u32),
    Literal(Row),
    Order(u32, u32),
    Equal,
}

// What a word and those that join it add to what is read.
#[derive(Clone, Copy)]
pub enum Met {
    Token(u32),
    Literal(Row),
}

// That, or a refusal's number; and the place after the word and those that join it.
#[derive(Clone, Copy)]
pub struct Piece {
    pub met: Result<Met, u32>,
    pub past: usize,
}
