// The merge desk: what a merge answers.
#![tactic(auto)]

// How many bytes of the merged record and how many contested rows were written.
#[derive(Debug, Clone, Copy, PartialEq, Eq)]
pub struct Merged {
    pub bytes: usize,
    pub rows: usize,
}
