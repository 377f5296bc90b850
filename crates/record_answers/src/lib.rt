// How the answers of merge and sweep are told to C and COBOL, as `answers` says.
#![tactic(auto)]

pub mod merged; // of merge
pub mod swept; // of sweep
