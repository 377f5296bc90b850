// A row of a plan over a block of records whose sides are any fields: each record by itself, with the sides looked up once for the block.
#![tactic(auto)]

pub mod rows; // which rows are judged so
