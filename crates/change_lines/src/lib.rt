// Lines that tell what became of an item in two copies.
#![tactic(auto)]

pub mod changes; // an item in two copies side by side
mod contents; // what an item holds
