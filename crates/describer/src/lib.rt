// Record descriptions as printed: the entries of a text, of items and of level 88.
#![tactic(auto)]

pub mod reading; // the entries of a text
