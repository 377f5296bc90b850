// Literals as they are written: their rows.
#![tactic(auto)]

pub mod numbers; // numeric literals
pub mod quotes; // nonnumeric literals
