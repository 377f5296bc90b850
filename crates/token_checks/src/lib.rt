// Refusals 5 and 6: tokens.
#![tactic(auto)]

pub mod tokens; // tokens
