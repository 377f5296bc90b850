// Packed fields: digits and the sign in half-bytes.
#![tactic(auto)]

pub mod halves; // half-bytes, and which of them a field may have
