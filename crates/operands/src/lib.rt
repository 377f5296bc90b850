// Tokens that name something: whether it is there, its row and its bytes.
#![tactic(auto)]

pub mod named; // what an operand token names
pub mod tokens; // which tokens there are
