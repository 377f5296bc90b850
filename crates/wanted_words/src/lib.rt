// Words that are asked for, in a text.
#![tactic(auto)]

pub mod literals; // words that are asked for
