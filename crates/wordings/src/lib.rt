// What a member reads: a sentence for each refusal.
#![tactic(auto)]

pub mod sentences; // what a refusal's number means
