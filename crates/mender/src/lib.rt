// Mending: blanks in numeric items become zeros and a plus sign where the item is valid afterwards.
#![tactic(auto)]

pub mod calls; // the call `mend`
pub mod rows; // one row of a record, and which row starts next
