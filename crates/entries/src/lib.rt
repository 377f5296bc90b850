// Entries of a record description.
#![tactic(auto)]

pub mod clauses; // what follows an item's name
pub mod entry; // a whole entry

// An entry as read: kind 0 is a group, and sizes, scales and counts of digits stop at 65,536.
#[derive(Debug, Clone, Copy, PartialEq, Eq)]
pub struct Noted {
    pub level: u32,
    pub place: u32,
    pub named: u32,
    pub kind: u32,
    pub size: u32,
    pub scale: u32,
    pub digits: u32,
}

// A whole entry of an item, how many groups are open at it, and where its period ends; or level 88.
#[derive(Debug, Clone, Copy, PartialEq, Eq)]
pub enum EntryRead {
    Whole {
        noted: Noted,
        depth: usize,
        end: usize,
    },
    Name,
}
