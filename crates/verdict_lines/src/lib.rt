// Lines that tell what a rule says of a record.
#![tactic(auto)]

pub mod verdicts; // a verdict, or where the rule stops
