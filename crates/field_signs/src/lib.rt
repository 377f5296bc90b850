// The sign of a numeric field.
#![tactic(auto)]

pub mod signs; // signs
