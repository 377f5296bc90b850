// Values of level 88 entries, judged already, in lent buffers.
#![tactic(auto)]

pub mod notes; // literals and pairs
pub mod taking; // values, until a limit is passed

// What has been taken of an entry's values: whether a limit is passed; if not, how many values, how many
// literals with those of entries before it, and how many bytes these have.
#[derive(Debug, Clone, Copy, PartialEq, Eq)]
pub struct Tally {
    pub over: bool,
    pub values: usize,
    pub literals: usize,
    pub bytes: usize,
}
