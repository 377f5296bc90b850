// Item rows of entries, and the limits that rows have.
#![tactic(auto)]

mod limits; // whether a row passes a limit
pub mod rows; // the rows of the entries that were read

// A row of the item table, before it is known to keep the limits.
#[derive(Debug, Clone, Copy, PartialEq, Eq)]
pub struct ItemRow {
    pub kind: u32,
    pub offset: usize,
    pub size: usize,
    pub scale: u32,
    pub digits: u32,
}

// What the entries of a group come to: its bytes, and whether a picture has an S.
#[derive(Debug, Clone, Copy, PartialEq, Eq)]
pub struct Below {
    pub size: usize,
    pub signed: bool,
}
