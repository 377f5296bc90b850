// Writing a condition in full.
#![tactic(auto)]

pub mod expand; // the expanded form
