// The condition grammar and the plan of a condition: definitions and theorems. Crate parser has the code.
#![tactic(auto)]

// A row of a plan: a simple condition, its target if true and its target if false.
#[derive(Debug, Clone, Copy, PartialEq, Eq)]
pub struct PlanRow {
    pub subject: u32,
    pub relation: u32,
    pub object: u32,
    pub holds: u32,
    pub fails: u32,
}
