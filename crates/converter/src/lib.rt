// Conditions and plans of the rules that had switch-off words, written with switch-on words only.
#![tactic(auto)]

pub mod calls; // the two calls
