// One plan over a block of records, row by row: each row that a record has reached is read once, and judged for the whole block.
#![tactic(auto)]

pub mod walk; // from row to row
