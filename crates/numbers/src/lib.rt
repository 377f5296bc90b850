// What a numeric field holds. Comparison by value is `scaled`.
#![tactic(auto)]

pub mod reading; // sign and digits of a field
