// A description read for its names and literals.
#![tactic(auto)]

pub mod names; // names and literals of a description
