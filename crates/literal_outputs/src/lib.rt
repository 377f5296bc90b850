// What was read of a description's literals, copied to the outputs.
#![tactic(auto)]

pub mod literals; // literal rows and literal bytes
