// Lines that tell what a rule says of the entries of a file.
#![tactic(auto)]

pub mod entries; // an entry of a file, and all of them together
