// Conditions as printed: the call that prints.
#![tactic(auto)]

pub mod printing; // a condition as text
