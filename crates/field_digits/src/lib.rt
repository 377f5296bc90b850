// What a numeric field holds: its digits. Its sign is `field_signs`.
#![tactic(auto)]

pub mod digits; // digits
