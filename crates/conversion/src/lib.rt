// Conditions of the rules that had switch-off words, written with switch-on words only. Plans are `plan_conversion`.
#![tactic(auto)]

pub mod words; // the tokens of a condition
