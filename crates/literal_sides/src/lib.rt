// A field beside a literal of a condition-name.
#![tactic(auto)]

pub mod literals; // a field beside a literal
