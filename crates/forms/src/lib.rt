// The calls that write a condition: in full, and as a plan. None asks anything of its caller.
#![tactic(auto)]

pub mod calls; // expand, plan
