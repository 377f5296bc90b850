// Ranges of level 88 entries: whether the low end exceeds the high end.
#![tactic(auto)]

pub mod ends; // two ends of a range, as they are written
