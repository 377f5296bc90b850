// How describe's answer is told to C and COBOL, as `answers` says.
#![tactic(auto)]

pub mod described; // of describe
