// Names of a description, by their places in its text.
#![tactic(auto)]

pub mod names; // the row that has a name
pub mod parts; // the name at a place

// What alone has a name: an item by its row, or a condition by its row in the name table.
#[derive(Debug, Clone, Copy, PartialEq, Eq)]
pub enum Called {
    Item(u32),
    Condition(u32),
}
