// The calls that judge a condition and run a plan. None asks anything of its caller.
#![tactic(auto)]

pub mod calls; // judge, run
