// The rows of a plan: writing them, and their targets.
#![tactic(auto)]

pub mod rows; // one more row, and where its verdicts lead
pub mod targets; // later rows and verdicts

// Where judging goes after a row: to a later row, or to a verdict.
#[derive(Debug, Clone, Copy, PartialEq, Eq)]
pub struct Target {
    pub number: u32,
}
