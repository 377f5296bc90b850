// Mending blanks: definitions and theorems. Crate mender has the code.
#![tactic(auto)]
