// Literals as they are written: their bytes.
#![tactic(auto)]

pub mod copies; // the bytes of a literal, written
pub mod points; // where a number's point stands
