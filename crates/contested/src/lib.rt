// Items that both copies changed apart.
#![tactic(auto)]

pub mod apart; // what both copies changed apart
