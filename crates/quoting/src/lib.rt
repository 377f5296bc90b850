// Literals as they are written in quotes. Numbers with their point are `pointing`.
#![tactic(auto)]

pub mod parts; // their bytes
