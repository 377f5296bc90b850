// What 01's limits and refusal 18 bar of a literal beside an item or another literal.
#![tactic(auto)]

pub mod pairs; // rows that may stand beside each other
