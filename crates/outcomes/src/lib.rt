// What a relation of two sides comes to: true, false, or a stop.
#![tactic(auto)]

pub mod sides; // two sides, by value or by characters
