// Which items the rows of a plan name. Which a run comes to is `walks`.
#![tactic(auto)]

pub mod marks; // a mark for each item row
