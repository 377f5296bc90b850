// Where in a text a byte stands: its line, and where that begins and ends.
#![tactic(auto)]

pub mod places; // the line and the column of a byte
