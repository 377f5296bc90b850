// Document 01's words that a relation number may have, by their numbers: relations, class words, sign words. `specs/Relations.antt`
// has the same numbers.

pub const GREATER: u32 = 5;

pub const LESS: u32 = 6;

pub const EQUAL: u32 = 7;

pub const GREATER_OR_EQUAL: u32 = 8;

pub const LESS_OR_EQUAL: u32 = 9;

pub const NUMERIC: u32 = 10;

pub const ALPHABETIC: u32 = 11;

pub const ALPHABETIC_LOWER: u32 = 12;

pub const ALPHABETIC_UPPER: u32 = 13;

pub const POSITIVE: u32 = 14;

pub const NEGATIVE: u32 = 15;

pub const ZERO: u32 = 16;

// What is added where NOT belongs to the relation.
pub const NEGATED: u32 = 32;
