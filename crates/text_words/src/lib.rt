// Texts and groups of up to 8 bytes, each read as one word, so that two of them compare at once.
#![tactic(auto)]

pub mod texts; // the word of a text
