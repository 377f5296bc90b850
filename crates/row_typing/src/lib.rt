// The typing of a plan's rows: refusal 9.
#![tactic(auto)]

pub mod rows; // refusal 9
