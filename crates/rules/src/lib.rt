// The whole answer of each call, the sixteen cases and the demands: definitions and theorems. Crate conditions has the code.
#![tactic(auto)]
