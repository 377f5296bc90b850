// Typing of a simple condition.
#![tactic(auto)]

pub mod sides; // what a relation number asks, and the typing of a simple condition

// What a relation number asks: a token that is a condition alone, a relation, a class or a sign, and whether NOT belongs to it.
#[derive(Debug, Clone, Copy, PartialEq, Eq)]
pub enum Test {
    Alone,
    Relation { word: u32, negated: bool },
    Class { word: u32, negated: bool },
    Sign { word: u32, negated: bool },
    Unknown,
}
