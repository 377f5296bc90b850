// Eight bytes as one word. Of digits, their test and their number are `eight_digits`.
#![tactic(auto)]

pub mod words; // the word of a field
