// Elementary items of a record: what every call over whole records shares (document 02, j, k, m).
#![tactic(auto)]

pub mod lines; // refusals 1, 2 and 10
