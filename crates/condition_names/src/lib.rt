// Level 88 entries: their values in a text.
#![tactic(auto)]

pub mod scan; // a value in a text

// A value as it stands in a text: where its low end starts and ends, and its high end, alike for a
// single value.
#[derive(Debug, Clone, Copy, PartialEq, Eq)]
pub struct Found {
    pub low: usize,
    pub mid: usize,
    pub high: usize,
    pub end: usize,
    pub range: bool,
}

// A value, after which others follow or the entry's period stands, and where it ends.
#[derive(Debug, Clone, Copy, PartialEq, Eq)]
pub enum ValueRead {
    Open { found: Found, end: usize },
    Ended { found: Found, end: usize },
}
