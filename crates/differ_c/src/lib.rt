// The call that tells what differs, for C and COBOL, told as `answers` says.
#![tactic(auto)]

pub mod differ; // what differs between two copies
