// Refusals 1 to 4 and 12: tables and the record. Tokens are `token_checks`.
#![tactic(auto)]

pub mod lent; // tables and the record
