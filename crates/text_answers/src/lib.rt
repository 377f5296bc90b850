// How the answer of read is told to C and COBOL, as `answers` says.
#![tactic(auto)]

pub mod recognized; // of read
