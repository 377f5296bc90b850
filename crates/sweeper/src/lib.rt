// One plan over a whole file of records: tables, plan and size are checked once.
#![tactic(auto)]

pub mod calls; // the call that users make
