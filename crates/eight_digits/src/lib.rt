// Eight digits in a word, at once.
#![tactic(auto)]

pub mod digits; // eight digits in a word
