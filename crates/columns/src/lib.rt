// Which rows of a plan are judged over a block of records by words, of digit fields or of short texts.
#![tactic(auto)]

pub mod rows; // relations, and NUMERIC
