// A plan's rows, read.
#![tactic(auto)]

pub mod rows; // one row
