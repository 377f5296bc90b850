// The words of a condition as tokens: document 01's words 0 to 16 are kind 4. `specs/Words.antt` has the same names.
use crate::tokens::FIRST_WORD;
use content::relations;

pub const OPEN: u32 = FIRST_WORD;

pub const CLOSE: u32 = FIRST_WORD + 1;

pub const NOT: u32 = FIRST_WORD + 2;

pub const AND: u32 = FIRST_WORD + 3;

pub const OR: u32 = FIRST_WORD + 4;

pub const GREATER: u32 = FIRST_WORD + relations::GREATER;

pub const LESS: u32 = FIRST_WORD + relations::LESS;

pub const EQUAL: u32 = FIRST_WORD + relations::EQUAL;

pub const GREATER_OR_EQUAL: u32 = FIRST_WORD + relations::GREATER_OR_EQUAL;

pub const LESS_OR_EQUAL: u32 = FIRST_WORD + relations::LESS_OR_EQUAL;

pub const NUMERIC: u32 = FIRST_WORD + relations::NUMERIC;

pub const ALPHABETIC: u32 = FIRST_WORD + relations::ALPHABETIC;

pub const ALPHABETIC_LOWER: u32 = FIRST_WORD + relations::ALPHABETIC_LOWER;

pub const ALPHABETIC_UPPER: u32 = FIRST_WORD + relations::ALPHABETIC_UPPER;

pub const POSITIVE: u32 = FIRST_WORD + relations::POSITIVE;

pub const NEGATIVE: u32 = FIRST_WORD + relations::NEGATIVE;

pub const ZERO: u32 = FIRST_WORD + relations::ZERO;
