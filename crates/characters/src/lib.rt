// Comparison by characters.
#![tactic(auto)]

pub mod filled; // the shorter side filled on the right
