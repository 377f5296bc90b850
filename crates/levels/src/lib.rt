// Level numbers and the groups that are open.
#![tactic(auto)]

pub mod level; // a level number in a text
pub mod open; // the groups that are open at an entry
