// One simple condition with what it carries on.
#![tactic(auto)]

pub mod simple; // one simple condition
pub mod words; // tokens by class

// What is carried from one simple condition to the next. Relation 0: nothing.
#[derive(Debug, Clone, Copy, PartialEq, Eq)]
pub struct Carried {
    pub subject: u32,
    pub relation: u32,
}

// One simple condition, its omitted parts filled in, with the place after it and what it leaves carried. Where none goes on,
// a function that reads one gives the place as its error.
#[derive(Debug, Clone, Copy, PartialEq, Eq)]
pub struct Single {
    pub subject: u32,
    pub relation: u32,
    pub object: u32,
    pub next: usize,
    pub carry: Carried,
}
