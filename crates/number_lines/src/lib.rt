// Numbers as text in a lent buffer: decimal, and bytes in hexadecimal.
#![tactic(auto)]

pub mod numbers; // decimal numbers, and bytes in hexadecimal
