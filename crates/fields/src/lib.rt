// What the bytes of a field hold: its validity, its first wrong byte.
#![tactic(auto)]

pub mod held; // valid content, its first wrong byte
