// The call that mends, for C and COBOL, told as `answers` says.
#![tactic(auto)]

pub mod mend; // mending
