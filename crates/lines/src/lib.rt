// Lines of text, put together in a lent buffer. A text goes as far as the buffer has room, so that no caller has to check first.
#![tactic(auto)]

pub mod text; // bytes as they are, and spaces
