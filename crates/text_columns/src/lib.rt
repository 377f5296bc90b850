// A relation over a block of records whose sides are texts or groups of up to 8 bytes: each is one word, and the relation is judged without a
// branch.
#![tactic(auto)]

pub mod rows; // which relations are judged so
