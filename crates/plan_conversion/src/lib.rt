// Plans of the rules that had switch-off words, written with switch-on words only.
#![tactic(auto)]

pub mod rows; // the rows of a plan
