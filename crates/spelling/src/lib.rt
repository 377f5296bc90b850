// Conditions as printed: definitions and theorems.
#![tactic(auto)]
