// Entries of a description in lent buffers: those of items.
#![tactic(auto)]

pub mod store; // an item's entry in a lent buffer
