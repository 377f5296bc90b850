// Literals of level 88 entries as rows. What bars one beside an item or another is `literal_pairs`.
#![tactic(auto)]

pub mod literals; // one literal, as it is written
