// Condition-names: what a name comes to on a record. Its rows are checked in `name_tables`.
#![tactic(auto)]

pub mod ranges; // a name's truth
