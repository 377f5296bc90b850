// The merge desk: three copies of a record merged item by item.
#![tactic(auto)]

pub mod calls; // the call that users make
