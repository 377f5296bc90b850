// What a rule looks at, listed in an output.
#![tactic(auto)]

pub mod lists; // marked rows in an output
