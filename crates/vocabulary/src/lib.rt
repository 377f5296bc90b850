// The words that mean something by themselves: document 01's words 0 to 16, the eight switches, GREATER, LESS and EQUAL.
#![tactic(auto)]

pub mod spellings; // their bytes
