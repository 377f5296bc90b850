// Conditions as printed: the call that reads them. The one that prints is `printouts`.
#![tactic(auto)]

pub mod calls; // the call that users make to read
