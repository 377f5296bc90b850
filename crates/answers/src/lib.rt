// How an answer is told to C and COBOL: the number that a call returns, and nine numbers (specs/Answer.antt), each of which is written.
#![tactic(auto)]

pub mod written; // of the calls that write
