// What differs between two copies of a record, item by item.
#![tactic(auto)]

pub mod calls; // the call `differ`
pub mod rows; // one row
