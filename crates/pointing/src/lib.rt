// Numbers as printed, with their point.
#![tactic(auto)]

pub mod points; // a number with its point
