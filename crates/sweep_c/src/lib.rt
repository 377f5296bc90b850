// The call that runs a plan over a file of records, for C and COBOL, told as `answers` says.
#![tactic(auto)]

pub mod sweep; // a plan over a whole file
