// The truth of a simple condition.
#![tactic(auto)]

pub mod conditions; // relation, class, sign and switch conditions, condition-names
