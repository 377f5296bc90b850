// Lines that tell of items: what a description says of them.
#![tactic(auto)]

pub mod rows; // a description's row
