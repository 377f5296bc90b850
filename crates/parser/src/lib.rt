// Reading a condition: its tree, as the rows of its plan.
#![tactic(auto)]

use simples::Carried;

pub mod cycle; // condition, chain, term and body

// What a part of the cycle has read: the place after it, what it leaves carried and the next row. Where no derived sequence goes
// on, the place is the error.
#[derive(Debug, Clone, Copy, PartialEq, Eq)]
pub struct Part {
    pub next: usize,
    pub carry: Carried,
    pub row: usize,
}
