// Tokens written back as words.
#![tactic(auto)]

pub mod lines; // words with one space between
mod tokens; // the word of one token
