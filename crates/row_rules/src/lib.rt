// What makes a row of a table sound.
#![tactic(auto)]

pub mod sound; // what makes a row sound
