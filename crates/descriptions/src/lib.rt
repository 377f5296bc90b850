// Record descriptions as printed: the call.
#![tactic(auto)]

pub mod calls; // the call that users make

use storing::Found;

// What was read of a text, and the smallest place over a limit.
#[derive(Clone, Copy)]
pub struct Parsed {
    pub found: Found,
    pub laid: Option<usize>,
}
