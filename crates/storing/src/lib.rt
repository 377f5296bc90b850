// Level 88 entries of a description in lent buffers, and what reading a text leaves in them.
#![tactic(auto)]

pub mod naming; // a level 88 entry in lent buffers

// The level 88 entries of a text: whether one passes a limit, and where the first such starts; if none,
// how many there are, how many literals they have, and how many bytes these.
#[derive(Debug, Clone, Copy, PartialEq, Eq)]
pub struct Names {
    pub over: bool,
    pub place: usize,
    pub count: usize,
    pub literals: usize,
    pub bytes: usize,
}

// One level 88 entry more, and where its period ends.
#[derive(Debug, Clone, Copy, PartialEq, Eq)]
pub struct NameStep {
    pub names: Names,
    pub end: usize,
}

// The entries of a text: how many of items are complete; whether the text is a description; if not, its
// first faulty byte; and those of level 88.
#[derive(Debug, Clone, Copy, PartialEq, Eq)]
pub struct Found {
    pub count: usize,
    pub whole: bool,
    pub place: usize,
    pub names: Names,
}
