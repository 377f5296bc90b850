// The calls that list what a rule looks at. None asks anything of its caller.
#![tactic(auto)]

pub mod calls; // looked_at, looked_at_plan, named_items
