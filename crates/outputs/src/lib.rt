// What was read of a description's rows and names, copied to the outputs. Literals are `literal_outputs`.
#![tactic(auto)]

pub mod copies; // rows, and places of names
