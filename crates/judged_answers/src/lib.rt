// How a truth, or where a condition stops, is told to C and COBOL.
#![tactic(auto)]

pub mod judged; // of judge and run
