// Bytes of a text: their classes, and the blanks between words.
#![tactic(auto)]

pub mod blanks; // blanks between words
pub mod bytes; // classes of bytes
