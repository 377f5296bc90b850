// The two sides of a relation. What a simple condition comes to on a record is defined here (specs/Truth.antt); its code is `truth`.
#![tactic(auto)]

pub mod sides; // the two sides of a relation
