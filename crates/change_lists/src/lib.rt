// The changes of an item, counted and listed.
#![tactic(auto)]

pub mod counting; // how many numbers
pub mod listing; // the numbers
