// One item mended.
#![tactic(auto)]

pub mod kinds; // one item
