// Level 88 entries in a text: their names, and their values as rows of numbers.
#![tactic(auto)]

pub mod reading; // a whole entry

use value_notes::Tally;

// The values of an entry, and where its period ends.
#[derive(Clone, Copy)]
pub struct NameRead {
    pub tally: Tally,
    pub end: usize,
}
