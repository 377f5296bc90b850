// The bytes of an item: told apart, copied, put into a record.
#![tactic(auto)]

pub mod parts; // the bytes of an item
